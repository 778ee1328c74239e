// The face list of a mesh, written from its table into a lent buffer.
#![tactic(auto)]

pub mod all_faces;
pub mod triangle_faces;
