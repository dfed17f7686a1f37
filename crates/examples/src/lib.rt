//! The worked examples of the rules, shown of the definitions.
#![tactic(auto)]

// Stays: a theorem is asked for by the contract of a function of its own.
ghost use Rattle.examples.specs.Examples.{Examples};

// What the definitions of the calls yield for the worked examples.
pub fn examples_hold()
    ensures { Examples }
{}
