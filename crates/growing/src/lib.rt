// Making and subdividing in plain tables: the vertices of each edge, and the contents of each triangle.
#![tactic(auto)]

pub mod edge;
mod ring_growth;
mod step;
mod steps;
pub mod subdivide;
mod vertices;
