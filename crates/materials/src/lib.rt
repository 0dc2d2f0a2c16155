// The materials that polygons use, each once, and the index of each polygon's among them.
#![tactic(auto)]

pub mod building;
pub mod listing;
