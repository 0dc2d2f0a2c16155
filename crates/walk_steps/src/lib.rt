// One reading of a record: whether it meets the query or is refused, and what state it leads to.
#![tactic(auto)]

pub mod boxes;
pub mod numbers;
pub mod refusals;
pub mod state;
