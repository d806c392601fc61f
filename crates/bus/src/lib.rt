#![tactic(auto)]

pub mod pass;
