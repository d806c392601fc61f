// The sizes that addresses, maps and memories share.

// words to a block
pub const BLOCK_WORDS: usize = 4;

// blocks to a page, and to a frame
pub const PAGE_BLOCKS: u16 = 8;

// virtual addresses, one for each word
pub const ADDRESSES: u16 = 2048;

// processes that a map knows
pub const PROCESSES: u8 = 8;

// pages to a process
pub const PAGES: u16 = 64;

// frames that a map can name
pub const FRAMES: u8 = 64;

// the most blocks that a memory has
pub const MOST_BLOCKS: u16 = 512;
