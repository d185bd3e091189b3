#![tactic(auto)]

// A field of the hall sheet: its number, the place after it, and the sheet's figures.
pub mod figures;
pub mod number;
pub mod place;
