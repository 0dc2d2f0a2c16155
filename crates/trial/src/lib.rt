// One margin of the search (rule S7): the vertices that it moves, and whether they pass.
#![tactic(auto)]

pub mod stay;
pub mod trial;
