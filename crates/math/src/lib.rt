// Points, boxes and transforms of floats, with the source's order of operations.
#![tactic(auto)]

pub mod aabb;
pub mod axis;
pub mod mat4;
pub mod vec3;
pub mod words3;
