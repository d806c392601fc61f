#![tactic(auto)]

pub mod pages;
pub mod play;
pub mod trace;
