#![tactic(auto)]

pub mod machine_fault;
pub mod trace_fault;
