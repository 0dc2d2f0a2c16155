// Every vertex of a mesh moved by a margin (rules S2 to S5): against the normals of the polygons around it.
#![tactic(auto)]

pub mod firsts;
pub mod moving;
pub mod normals;
pub mod ring;
pub mod vertex;
