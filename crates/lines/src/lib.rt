#![tactic(auto)]

pub mod line;
