#![tactic(auto)]

pub mod entry;
mod strip;
