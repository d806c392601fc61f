use lines::line::Level;
use tables::types::REntry;

// Where a reference found its line: the way of its V-set, and the level.
#[derive(Clone, Copy)]
pub struct Found {
    pub way: usize,
    pub level: Level,
}

// The ways that were freed for a block, and the entry that went. Ways, and not places: their sets are those of the blocks
// that the caller asked for.
#[derive(Clone, Copy)]
pub struct Room {
    pub line_way: usize,
    pub entry_way: usize,
    pub replaced: REntry,
}
