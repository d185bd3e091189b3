#![tactic(auto)]

// The hall's table of tasks, phasers and waits, and the ten calls that move it (document 01).
pub mod calls;
pub mod kind;
pub mod sound;
pub mod table;
pub mod tests;
pub mod waiting;
