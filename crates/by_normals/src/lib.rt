// Every vertex of a mesh moved against the sum of its triangles' normals (rule S9), where no margin passes.
#![tactic(auto)]

pub mod moving;
pub mod normals;
pub mod sums;
