// How a tree grows from a list of places.
#![tactic(auto)]

pub mod grow;
