// The shrunk vertices of a mesh (rules S1 to S9): by the first margin that passes, or by their normals.
#![tactic(auto)]

pub mod whole;
