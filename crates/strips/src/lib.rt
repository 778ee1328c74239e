// Sinks of line strips: what a sink is, two sinks over lent tables, and writing a strip to any sink.
#![tactic(auto)]

pub mod filled;
pub mod mark_sink;
pub mod mark_taking;
pub mod sink;
pub mod start_sink;
pub mod start_taking;
pub mod writing;
