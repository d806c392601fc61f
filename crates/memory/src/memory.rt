ghost use Rattle.std.specs.Prelude.{◌≡◌, ℕ, ◌<◌, ◌≤◌, List, length};
ghost use Rattle.base.specs.Sizes.{block_words, most_blocks};
ghost use Rattle.memory.specs.Words.{Own, below, reading, writing, written};

use crate::fault::MemoryFault;
use base::block::{PhysicalBlock, Words};

// A memory: blocks of four words, numbered from 0.
pub trait Memory {
    // How many blocks it has. No call alters it.
    ghost count: { Self → ℕ };

    // The words of each block.
    ghost holds: { Self → ℕ → List ℕ };

    // What an implementation keeps from its making on. The promises of a call are under it,
    // so that no call asks anything of its caller. Only that a fault is about the block asked for
    // is promised of every memory.
    ghost sound: { Self → Type 0 };

    fn count_blocks(&self) -> u16
        ensures { sound self.now → result ≡ count self.now };

    fn read(&mut self, block: PhysicalBlock) -> Result<Words, MemoryFault>
        ensures kept { sound self.old → sound self.new }
        ensures answer { sound self.old → result ≡ reading (count self.old) (holds self.old) block }
        ensures own { Own block result }
        ensures same { sound self.old → count self.new ≡ count self.old }
        ensures blocks { sound self.old → holds self.new ≡ holds self.old };

    fn write(&mut self, block: PhysicalBlock, words: Words) -> Result<(), MemoryFault>
        ensures kept { sound self.old → sound self.new }
        ensures answer { sound self.old → result ≡ writing (count self.old) block }
        ensures own { Own block result }
        ensures same { sound self.old → count self.new ≡ count self.old }
        ensures blocks { sound self.old → holds self.new ≡ written (count self.old) (holds self.old) block words };

    // A sound memory has no more blocks than a memory has.
    ghost few: { (s : Self) → sound s → count s ≤ most_blocks };

    // Each of its blocks has four words.
    ghost four: { (s : Self) (b : ℕ) → sound s → b < count s → length (holds s b) ≡ block_words };
}

// The number of a block, which must be below a count of blocks.
pub(crate) fn number_below(count: u16, block: PhysicalBlock) -> Result<u16, MemoryFault>
    ensures { result ≡ below count block }
{
    let number = u16::from(block);
    if number < count {
        Ok(number)
    } else {
        Err(MemoryFault::Outside { block })
    }
}
