#![tactic(auto)]

pub mod anew;
pub mod back;
pub mod two_pages;
