// Tests of memories, maps and replacement rules on examples.
#![tactic(auto)]

#[cfg(test)]
mod memory_tests;
#[cfg(test)]
mod paging_tests;
#[cfg(test)]
mod replacement_tests;
