// Tests of reading traces, of writing lines and of the map of a trace.
#![tactic(auto)]

#[cfg(test)]
mod decoding;
#[cfg(test)]
mod listing;
#[cfg(test)]
mod mapping;
#[cfg(test)]
mod refusing;
#[cfg(test)]
mod support;
