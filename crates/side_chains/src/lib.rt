// The sides of triangles in chains, one for each lower corner, and linked chain by chain.
#![tactic(auto)]

pub mod chains;
pub mod walk;
