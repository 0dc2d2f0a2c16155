// The octant lists of a geometry: for each of eight directions the vertices that no other one shadows.
#![tactic(auto)]

pub mod answering;
pub mod entry;
pub mod keys;
pub mod laying;
pub mod lists;
