#![tactic(auto)]

pub mod claim;
pub mod count;
pub mod finish;
pub mod new;
pub mod remap;
