// The counter's work: where chunks begin and end, what is taken in, and what is printed.
#![tactic(auto)]

pub mod bounds;
mod desk;
mod report;

pub use desk::Desk;
