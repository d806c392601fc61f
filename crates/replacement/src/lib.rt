#![tactic(auto)]

pub mod cache_rules;
mod candidates;
pub mod first_in;
pub mod least_recently_used;
pub mod rule;
