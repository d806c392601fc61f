#![tactic(auto)]

pub mod block;
pub mod fault;
pub mod layer;
pub mod size;
