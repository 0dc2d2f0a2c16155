// Polygons put into another order: where each comes to, their records with the links renumbered, and the numbers of their materials.
#![tactic(auto)]

pub mod lookup;
pub mod renumbering;
