#![tactic(auto)]

ghost use Rattle.facts.specs.Facts.{Facts};

// Worked examples of the definitions, one table.
pub fn facts()
    ensures { Facts }
{}
