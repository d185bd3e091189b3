#![tactic(auto)]

// The hall sheet, written.
mod counts;
mod entry;
mod head;
pub mod next;
mod number;
pub mod writer;
