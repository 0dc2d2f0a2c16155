// The query over a tree's records: which positions stand for items that may meet a box.
#![tactic(auto)]

pub mod entry;
pub mod reader;
pub mod slices;
