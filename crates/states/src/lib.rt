#![tactic(auto)]

// Tasks, phasers and phases by number, events and states, and every test that needs no table (document 01).
pub mod sound;
pub mod state;
pub mod tests;
pub mod waiting;
