#![tactic(auto)]

ghost use Rattle.routes.specs.Theorems.{ResponsesAreRoutes, AnswersAreForward, LatestIsBackward, AnswersSolve, CeilingsBoundSolutions};

use kinds::Kind;

// The way through a net: from the inputs to the outputs, or back.
#[derive(Clone, Copy, PartialEq, Eq, Debug)]
pub enum Way {
    Forth,
    Back,
}

// The response of every net is the join of the weights of its routes.
pub fn responses_are_routes<T: Kind>()
    ensures { ResponsesAreRoutes T.Kind.ops }
{}

// The states of a net, beat by beat, give its forward answer.
pub fn strikes_are_joins<T: Kind>()
    ensures { AnswersAreForward T.Kind.ops }
{}

// The states of a net, from the last beat back, give its backward answer.
pub fn ceilings_are_residuals<T: Kind>()
    ensures { LatestIsBackward T.Kind.ops }
{}

// Where every circuit of a net passes, its forward answer is what leaves by the least
// solution of the net's equations.
pub fn strikes_are_solutions<T: Kind>()
    ensures { AnswersSolve T.Kind.ops }
{}

// On such a net the backward answer is that map's residual.
pub fn ceilings_bound_solutions<T: Kind>()
    ensures { CeilingsBoundSolutions T.Kind.ops }
{}
