#![tactic(auto)]

pub mod attach;
pub mod found;
pub mod room;
