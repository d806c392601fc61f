#![tactic(auto)]

pub mod buffer;
pub mod fault;
pub mod map;
pub mod mapped;
pub mod straight;
pub mod table;
