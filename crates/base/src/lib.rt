// What every crate above stands on: two kinds of number that are never mixed, whole numbers as bytes, and laws of lists and numbers.
#![tactic(auto)]

pub mod little_endian;
pub mod merging;
pub mod numbers;
