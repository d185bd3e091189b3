#![tactic(auto)]

// Where the customer's demands meet the code: each function here hands on what a public function below it hands back, and promises of it the sentences of
// document 00 (specs/Demands.antt, specs/Moves.antt). Whoever weakens a promise below fails here.
pub mod calls;
pub mod densities;
pub mod judging;
pub mod sheets;
pub mod writing;
