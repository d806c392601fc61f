// The records of one processor: its two caches, the words of the replacement rules, its process and its counts.
use base::block::{PhysicalBlock, Process, VirtualBlock, Words};

// sets and ways of the V-cache
pub const V_SETS: usize = 16;

pub const V_WAYS: usize = 2;

// sets and ways of the R-cache
pub const R_SETS: usize = 32;

pub const R_WAYS: usize = 4;

// A set and a way of one of the caches. That they are in range is a premise of the calls that take a place, and no
// invariant of it: docs/DECISIONS.md tells what was tried.
#[derive(Clone, Copy, Debug, Default, PartialEq, Eq)]
pub struct Place {
    pub set: usize,
    pub way: usize,
}

#[derive(Clone, Copy, Debug, Default, PartialEq, Eq)]
pub enum LineState {
    #[default]
    Empty,
    // It can be hit.
    Valid,
    // It holds its block, but its tag is of a process or a map that no longer counts: it cannot be hit.
    Swapped,
}

// A line of the V-cache. The tag is its virtual block, the R-place that of its entry in the R-cache.
// An empty line is no None: docs/RULES.md tells the other fields of one, each as 0 or false.
#[derive(Clone, Copy, Debug, Default, PartialEq, Eq)]
pub struct VLine {
    pub state: LineState,
    pub tag: VirtualBlock,
    pub words: Words,
    pub dirty: bool,
    pub rplace: Place,
}

#[derive(Clone, Copy, Debug, Default, PartialEq, Eq)]
pub enum EntryState {
    #[default]
    Absent,
    // No other processor has the block.
    Private,
    // Another processor may have the block.
    Shared,
}

// The copy of an entry's block in the V-cache, and whether it is newer than the entry's words.
// Shaped as an Option, and an enum of its own all the same: docs/DECISIONS.md fixes a child enum in each entry.
#[derive(Clone, Copy, Debug, Default, PartialEq, Eq)]
pub enum Child {
    #[default]
    NoChild,
    At { place: Place, vdirty: bool },
}

// An entry of the R-cache. An absent one is no None: docs/DECISIONS.md fixes a state enum in each entry.
#[derive(Clone, Copy, Debug, Default, PartialEq, Eq)]
pub struct REntry {
    pub state: EntryState,
    pub block: PhysicalBlock,
    pub words: Words,
    pub rdirty: bool,
    pub child: Child,
}

// Blocks fetched by a processor, and those that its entries lost again.
#[derive(Clone, Copy, Debug, Default, PartialEq, Eq)]
pub struct Counts {
    pub fetched: u32,
    pub replaced: u32,
    pub invalidated: u32,
}

// One processor. `vrule` and `rrule` are the words of the replacement rules, one for each set. They stand beside the
// tables: in a struct for each set, `p.v[set][way]` would be no plainer as `p.v[set].lines[way]`.
#[derive(Clone, Copy)]
pub struct Processor {
    pub v: [[VLine; V_WAYS]; V_SETS],
    pub r: [[REntry; R_WAYS]; R_SETS],
    pub vrule: [u32; V_SETS],
    pub rrule: [u32; R_SETS],
    pub process: Process,
    pub counts: Counts,
}

// the most processors of a board
pub const PROCESSORS: usize = 4;

// The records of a board's processors. An array with a count beside it, and no Vec: making a machine cannot fail.
pub type Processors = [Processor; PROCESSORS];

// What a processor answers where it sees a read on the bus.
#[derive(Clone, Copy, Debug, PartialEq, Eq)]
pub enum Snoop {
    NotHeld,
    Held,
    // It had the block modified, and supplies these words.
    Supplied { words: Words },
}
