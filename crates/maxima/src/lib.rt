// The vertices of a direction that no other shadows, over rows of four numbers.
#![tactic(auto)]

pub mod kept;
pub mod listing;
pub mod marking;
