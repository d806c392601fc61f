#![tactic(auto)]

pub mod decode;
pub mod fault;
pub mod iter;
pub mod record;
pub mod trace;
pub mod words;
