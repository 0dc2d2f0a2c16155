// Whether shrunk vertices pass (rule S6): no vertex, on its way back, crosses a triangle that is not its own.
#![tactic(auto)]

pub mod check;
pub mod faces;
pub mod rays;
pub mod rows;
pub mod triangles;
