// The rules of a case once more, in plain numbers: every list of outputs is counted through. It shares nothing with the planner, not even a type, so that
// the two can be held beside each other.

#![tactic(auto)]

pub mod enumerator;
pub mod expectation;
pub mod found;
pub mod generator;
pub mod lending;
pub mod numbers;
pub mod printing;
pub mod tally;
