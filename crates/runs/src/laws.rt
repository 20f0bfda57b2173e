ghost use Rattle.runs.specs.Theorems.{RunFixesState, RunFixesAnswers};

use kinds::Kind;

// A run with its answers fixes score, plan and lanes, whatever phrase and sheet it was made on.
pub fn run_fixes_state<T: Kind>()
    ensures { RunFixesState T.Kind.ops }
{}

// After an accepted lay equal calls are given equal answers.
pub fn run_fixes_answers<T: Kind>()
    ensures { RunFixesAnswers T.Kind.ops }
{}
