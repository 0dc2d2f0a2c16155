// How a node's items are split in two: the axis, the groups, and the cut of the sorted items where a group is empty.
#![tactic(auto)]

pub mod divide;
pub mod groups;
