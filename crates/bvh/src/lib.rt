// From boxes to tree records.
#![tactic(auto)]

pub mod entry;
pub mod items;
pub mod slices;
