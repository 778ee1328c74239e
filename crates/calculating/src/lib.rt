// The points of a mesh's vertices, calculated by the rules of a base.
#![tactic(auto)]

pub mod base_points;
mod calculation;
pub mod contents;
