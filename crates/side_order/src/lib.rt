// The sides of triangles grouped by their edge, by digits or by insertion, and linked run by run.
#![tactic(auto)]

pub mod digits;
pub mod grouping;
pub mod insertion;
pub mod runs;
