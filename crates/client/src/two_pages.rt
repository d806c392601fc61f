// Two pages of a process.
ghost use Rattle.std.specs.Prelude.{◌≡◌};
ghost use Rattle.base.specs.Blocks.{block_of, page_of};

use base::block::{Frame, Page, Process, VirtualBlock};
use base::size::BLOCK_WORDS;

// An address on each of two pages of one process, and the frame that both pages are to be entered at.
#[derive(Clone, Copy, Debug, PartialEq, Eq)]
pub struct TwoPages {
    pub process: Process,
    pub first: u16,
    pub second: u16,
    pub frame: Frame,
}

// The page of an address, in range or not.
pub fn page_at(address: u16) -> Page
    ensures { result.0 ≡ page_of (block_of address) }
{
    VirtualBlock::from(address / BLOCK_WORDS as u16).page()
}
