#![tactic(auto)]

pub mod elimination;
pub mod ring;
