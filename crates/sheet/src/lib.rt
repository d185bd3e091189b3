#![tactic(auto)]

// The reader of the hall sheet.
mod entry;
mod head;
pub mod reader;
mod refusal;
