// One step of binary32 arithmetic each, equal to IEEE 754-2019 or to Rust's own cast.
#![tactic(auto)]

pub mod casts;
pub mod compare;
pub mod counts;
pub mod extremes;
pub mod root;
pub mod signs;
pub mod sorting;
pub mod words;
