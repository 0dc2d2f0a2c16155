// The shrunk vertices of polygon records (rule S10): the checks, the mesh of the records, and its shrunk vertices.
#![tactic(auto)]

pub mod entry;
