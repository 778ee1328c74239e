// The line strips of one triangle and of one edge, written to any sink.
#![tactic(auto)]

pub mod edge;
mod one_strip;
mod ring_strip;
mod strip;
pub mod triangle;
