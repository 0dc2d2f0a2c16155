// What is read of the list of entries: the box at a place, of some places the fold, sum and average of their boxes, and every centre, kept once.
#![tactic(auto)]

pub mod average;
pub mod boxes;
pub mod fold;
pub mod totals;
