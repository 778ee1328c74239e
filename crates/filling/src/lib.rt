// Filling a data slice from a mesh, vertex by vertex.
#![tactic(auto)]

pub mod fill;
pub mod generator;
