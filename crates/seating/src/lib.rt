#![tactic(auto)]

// Who is blocked, who sits at which phaser and who is late for whose event: loops over single arrays of a table (document 01, 'Stuck').
pub mod seats;
pub mod waiting;
