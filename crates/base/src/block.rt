ghost use Rattle.std.specs.Prelude.{◌≡◌, ℕ, ◌+◌, ◌*◌, ◌<◌};
ghost use Rattle.base.specs.Blocks.{addressed, block_of, composed, in_page, page_of, word_of};

use crate::size::{ADDRESSES, BLOCK_WORDS, PAGE_BLOCKS};

// The words of one block.
pub type Words = [u32; BLOCK_WORDS];

// A process, as the operating system numbers it.
#[derive(Clone, Copy, Debug, Default, PartialEq, Eq)]
pub struct Process(pub u8);

// A page of a process.
#[derive(Clone, Copy, Debug, PartialEq, Eq)]
pub struct Page(pub u16);

// A frame of memory, which a page is mapped to.
#[derive(Clone, Copy, Debug, PartialEq, Eq)]
pub struct Frame(pub u8);

// A virtual address: the number of a word.
#[derive(Clone, Copy, Debug, PartialEq, Eq)]
pub struct Address(u16);

// A block as a process names it. This type and the next have the same conversions, and are not one type with a parameter:
// docs/DECISIONS.md fixes a struct for each, so that only a map's look-up leads from one to the other.
#[derive(Clone, Copy, Debug, Default, PartialEq, Eq)]
pub struct VirtualBlock(u16);

// A block of memory. What a process names becomes one by a map's look-up and in no other way;
// a memory and a device name theirs by number.
#[derive(Clone, Copy, Debug, Default, PartialEq, Eq)]
pub struct PhysicalBlock(u16);

// The number of a word that has no address.
#[derive(Clone, Copy, Debug, PartialEq, Eq)]
pub struct NoAddress(pub u16);

// The address of a word, where there is one.
impl TryFrom<u16> for Address {
    type Error = NoAddress;

    ghost try_from_gives = { λ word r. r ≡ addressed word };

    fn try_from(word: u16) -> Result<Address, NoAddress> {
        if word < ADDRESSES {
            Ok(Address(word))
        } else {
            Err(NoAddress(word))
        }
    }
}

impl From<Address> for u16 {
    ghost from_gives = { λ address r. r ≡ address.0 };

    fn from(address: Address) -> u16 {
        address.0
    }
}

impl Address {
    pub fn block(self) -> VirtualBlock
        ensures { result.0 ≡ block_of self.0 }
    {
        VirtualBlock(self.0 / BLOCK_WORDS as u16)
    }

    // Which word of its block it is. With page and block in page it makes the address.
    pub fn word(self) -> usize
        ensures value { result ≡ word_of self.0 }
        ensures parts { self.0 ≡ composed (page_of (block_of self.0)) (in_page (block_of self.0)) result }
    {
        self.0 as usize % BLOCK_WORDS
    }
}

impl From<u16> for VirtualBlock {
    ghost from_gives = { λ number r. r.0 ≡ number };

    fn from(number: u16) -> VirtualBlock {
        VirtualBlock(number)
    }
}

impl From<VirtualBlock> for u16 {
    ghost from_gives = { λ block r. r ≡ block.0 };

    fn from(block: VirtualBlock) -> u16 {
        block.0
    }
}

impl From<VirtualBlock> for usize {
    ghost from_gives = { λ block r. r ≡ block.0 };

    fn from(block: VirtualBlock) -> usize {
        usize::from(block.0)
    }
}

impl VirtualBlock {
    pub fn page(self) -> Page
        ensures { result.0 ≡ page_of self.0 }
    {
        Page(self.0 / PAGE_BLOCKS)
    }

    // Which block of its page it is.
    pub fn in_page(self) -> u16
        ensures { result ≡ in_page self.0 }
    {
        self.0 % PAGE_BLOCKS
    }
}

impl From<u16> for PhysicalBlock {
    ghost from_gives = { λ number r. r.0 ≡ number };

    fn from(number: u16) -> PhysicalBlock {
        PhysicalBlock(number)
    }
}

impl From<PhysicalBlock> for u16 {
    ghost from_gives = { λ block r. r ≡ block.0 };

    fn from(block: PhysicalBlock) -> u16 {
        block.0
    }
}

impl From<PhysicalBlock> for usize {
    ghost from_gives = { λ block r. r ≡ block.0 };

    fn from(block: PhysicalBlock) -> usize {
        usize::from(block.0)
    }
}
