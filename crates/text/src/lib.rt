#![tactic(auto)]

pub mod densities;
pub mod text;
pub mod verdict;
