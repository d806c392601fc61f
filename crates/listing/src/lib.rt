#![tactic(auto)]

pub mod list;
pub mod play;
pub mod shown;
