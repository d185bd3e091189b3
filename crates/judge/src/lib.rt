#![tactic(auto)]

// The judge over a table (document 01, 'Stuck' and 'The hall sheet'): three routes, one ring, a verdict.
pub mod event_route;
pub mod judge;
pub mod of_sheet;
mod ring;
pub mod route;
pub mod task_route;
pub mod verdict;
