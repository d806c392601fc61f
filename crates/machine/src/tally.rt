// The blocks that a processor fetched, and what became of them.
#[derive(Clone, Copy, Debug, PartialEq, Eq)]
pub struct Tally {
    pub fetched: u32,
    pub resident: u32,
    pub replaced: u32,
    pub invalidated: u32,
}
