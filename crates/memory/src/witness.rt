// What each maker makes is sound, so what the calls promise of sound memories is promised.
ghost use Rattle.std.specs.Prelude.{◌≡◌};
ghost use Rattle.memory.specs.Slices.{stored};

use crate::fault::MemoryFault;
use crate::memory::Memory;
use crate::pair::Pair;
use crate::word_memory::WordMemory;
use base::block::{PhysicalBlock, Words};

fn asks_sound<M: Memory>(memory: &M)
    requires { M.Memory.sound memory.now }
{}

fn words_are_sound(words: &mut [u32]) {
    asks_sound(&WordMemory::new(words));
}

fn pair_is_sound(even: &mut [u32], odd: &mut [u32]) {
    let pair = Pair::new(WordMemory::new(even), WordMemory::new(odd));
    asks_sound(&pair);
}

fn pair_of_pairs_is_sound(a: &mut [u32], b: &mut [u32], c: &mut [u32], d: &mut [u32]) {
    let even = Pair::new(WordMemory::new(a), WordMemory::new(b));
    let odd = Pair::new(WordMemory::new(c), WordMemory::new(d));
    asks_sound(&Pair::new(even, odd));
}

// The words hold what was written, when the memory is let go.
fn words_hold_a_write(
    words: &mut [u32],
    block: PhysicalBlock,
    four: Words,
) -> Result<(), MemoryFault>
    ensures { words.new ≡ stored words.old block four }
{
    let mut memory = WordMemory::new(words);
    memory.write(block, four)
}

// And so do those that it hands back.
fn words_handed_back<'a>(words: &'a mut [u32], block: PhysicalBlock, four: Words) -> &'a mut [u32]
    ensures { result.now ≡ stored words.old block four }
{
    let mut memory = WordMemory::new(words);
    let _ = memory.write(block, four);
    memory.into_words()
}
