// The shrinking of a geometry's vertices (rules S1 to S8): each moves inwards by a margin, which is halved until no vertex crosses a triangle on its way.
#![tactic(auto)]

pub mod clamp;
pub mod margin;
pub mod search;
pub mod whole;
