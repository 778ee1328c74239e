// From a line of text to the instruction that it means. docs/ORDER.md has the format.
#![tactic(auto)]

pub mod expected;
pub mod instruction;
pub mod read;
mod word;
mod words;
