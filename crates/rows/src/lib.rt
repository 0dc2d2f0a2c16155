// A tree as rows in preorder, and from rows to records: sizes, node records, padding, order and ranges.
#![tactic(auto)]

pub mod emit;
pub mod ranges;
pub mod sizes;
pub mod table;
