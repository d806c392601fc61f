#![tactic(auto)]

pub mod blank;
pub mod cell;
pub mod choice;
pub mod count;
pub mod entry;
pub mod find;
pub mod line;
pub mod snoop;
pub mod swap;
