#![tactic(auto)]

// A file of sheets, each after its length (document 02, M-101): what comes next in it, what is counted of a sheet, and the totals.
pub mod counted;
pub mod piece;
pub mod totals;
