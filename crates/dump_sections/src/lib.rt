// What is printed of a prepared mesh, section after section.
#![tactic(auto)]

pub mod printing;
pub mod sections;
