// The listing of a tree: child box records are read, their tree is built, and its records are printed.
#![tactic(auto)]

pub mod lines;
pub mod list;
pub mod reading;
pub mod run;
pub mod text;
