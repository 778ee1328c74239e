// Orders: lines of text that describe a base shape and ask a question about it. docs/ORDER.md has
// the format.
#![tactic(auto)]

pub mod draft;
pub mod fault;
pub mod reader;
pub mod report;
mod report_text;
