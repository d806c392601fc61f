#![tactic(auto)]

mod access;
mod admit;
pub mod answer;
mod claim;
mod device;
mod fetched;
pub mod machine;
pub mod parts;
mod process;
mod read_write;
mod reading;
mod reference;
mod set_up;
pub mod tally;
pub mod tenure;
