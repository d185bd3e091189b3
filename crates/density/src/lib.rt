#![tactic(auto)]

// How dense a table's graphs are (document 02, M-101): its awaited events, and the edges among blocked tasks and awaited events, counted.
pub mod density;
mod edges;
pub mod events;
