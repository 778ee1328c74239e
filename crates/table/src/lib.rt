// The plain table of a mesh.
#![tactic(auto)]

pub mod counts;
pub mod forward;
pub mod grow;
mod lists;
mod making;
pub mod table;
pub mod view;
