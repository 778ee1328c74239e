// The questions put to a base shape before a mesh is made over it.
#![tactic(auto)]

pub mod check;
pub mod laws;
mod lists;
mod question;
mod side;
mod used;
