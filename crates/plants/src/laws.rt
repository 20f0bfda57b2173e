ghost use Rattle.plants.specs.Theorems.{CeilingIsExact, CeilingIsGreatest, ForwardRises, BackwardRises, TopCeiling};

use kinds::Kind;

// What forward and backward answers are to each other, for every kind and every meaning.
pub fn plants_answer_in_order<T: Kind>()
    ensures exact { CeilingIsExact T.Kind.ops }
    ensures greatest { CeilingIsGreatest T.Kind.ops }
    ensures forward { ForwardRises T.Kind.ops }
    ensures backward { BackwardRises T.Kind.ops }
    ensures top { TopCeiling T.Kind.ops }
{}
