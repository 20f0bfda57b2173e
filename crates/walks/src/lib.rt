#![tactic(auto)]

ghost use Rattle.walks.specs.Circuits.{CircuitIsNamedOnce, ShortCircuitsSuffice};

use kinds::Kind;

// For every net, at most one list of transitions is the one that a refusal names.
pub fn circuit_is_named_once<T: Kind>()
    ensures { CircuitIsNamedOnce T.Kind.ops }
{}

// A net of n transitions passes if its circuits of at most n places do.
pub fn short_circuits_suffice<T: Kind>()
    ensures { ShortCircuitsSuffice T.Kind.ops }
{}
