// Composites: the boxes of their children as bytes, and the tree over their computed boxes.
#![tactic(auto)]

pub mod boxes;
pub mod building;
pub mod children;
