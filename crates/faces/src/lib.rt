// The faces of one triangle, written into a lent buffer.
#![tactic(auto)]

mod formulas;
mod ring;
pub mod triangle;
mod writer;
