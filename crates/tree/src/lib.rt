// A build and the walk over its records, as one.
#![tactic(auto)]

pub mod pair;
pub mod premises;
