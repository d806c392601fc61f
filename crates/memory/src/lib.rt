#![tactic(auto)]

pub mod fault;
pub mod memory;
pub mod pair;
mod witness;
pub mod word_memory;
