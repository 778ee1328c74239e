// The rings of a triangle's contents in a plain table, and what is read of them and of an edge.
#![tactic(auto)]

pub mod contents;
pub mod positions;
pub mod ring_view;
pub mod row;
pub mod slice;
