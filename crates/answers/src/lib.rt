// What the C interface answers of comparisons, builds, headers and walks: numbers and structs for the cases of enums.
#![tactic(auto)]

pub mod numbers;
pub mod trees;
pub mod walks;
