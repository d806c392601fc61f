ghost use Rattle.std.specs.Prelude.{◌≡◌, ℕ, ◌+◌, ◌*◌, ◌<◌, length, refl};
ghost use Rattle.base.specs.Sizes.{block_words};
ghost use Rattle.memory.specs.Slices.{block_at, few_blocks, four_at, stored, whole_blocks};
ghost use Rattle.memory.specs.Words.{Own, put, reading, writing, written};

use crate::fault::MemoryFault;
use crate::memory::{Memory, number_below};
use base::block::{PhysicalBlock, Words};
use base::size::{BLOCK_WORDS, MOST_BLOCKS};

// A memory in the caller's words: their whole blocks, at most as many as a memory has.
// Words past the last of them are never touched.
#[derive(Drop)]
pub struct WordMemory<'a> {
    words: &'a mut [u32],
}

impl<'a> WordMemory<'a> {
    pub fn new(words: &'a mut [u32]) -> WordMemory<'a>
        ensures holds { result.words.now ≡ words.old }
        ensures named { result.words.ghost_name ≡ words.entry.ghost_name }
    {
        WordMemory { words }
    }

    // The words are handed back.
    pub fn into_words(self) -> &'a mut [u32]
        ensures holds { result.now ≡ self.entry.words.now }
        ensures named { result.ghost_name ≡ self.entry.words.ghost_name }
    {
        let words = self.words;
        words
    }

    // The words of a block that is there, by their place in the slice, as `store` replaces them.
    fn fetch(&self, number: u16) -> Words
        requires { number < whole_blocks self.now.words.now }
        ensures { result ≡ block_at self.now.words.now number }
    {
        let at = BLOCK_WORDS * usize::from(number);
        [
            self.words[at],
            self.words[at + 1],
            self.words[at + 2],
            self.words[at + 3],
        ]
    }

    // Replaces the four words from a place on.
    fn replace(&mut self, at: usize, words: Words)
        requires { at + 3 < length self.old.words.now }
        ensures list { self.new.words.now ≡ four_at self.old.words.now at words }
        ensures named { self.new.words.ghost_name ≡ self.old.words.ghost_name }
    {
        self.words[at..at + BLOCK_WORDS].copy_from_slice(&words);
    }

    // Replaces the words of a block that is there.
    fn store(&mut self, number: u16, words: Words)
        requires { number < whole_blocks self.old.words.now }
        ensures same { whole_blocks self.new.words.now ≡ whole_blocks self.old.words.now }
        ensures blocks { block_at self.new.words.now ≡ put (block_at self.old.words.now) number words }
        ensures list { self.new.words.now ≡ four_at self.old.words.now (block_words * number) words }
        ensures named { self.new.words.ghost_name ≡ self.old.words.ghost_name }
    {
        self.replace(BLOCK_WORDS * usize::from(number), words);
    }
}

impl<'a> Memory for WordMemory<'a> {
    ghost count = { λ s. whole_blocks s.words.now };

    ghost holds = { λ s. block_at s.words.now };

    // Nothing is asked of the words. So below, the premise of each promise is `Unit {0}`.
    ghost sound = { λ _. Unit {0} };

    ghost few = { λ s _. few_blocks s.words.now };

    ghost four = { λ s b _ _. refl };

    fn count_blocks(&self) -> u16
        ensures { Unit {0} → result ≡ whole_blocks self.now.words.now }
    {
        (self.words.len() / BLOCK_WORDS).min(usize::from(MOST_BLOCKS)) as u16
    }

    // Besides what the trait says: the words are as they were.
    fn read(&mut self, block: PhysicalBlock) -> Result<Words, MemoryFault>
        ensures kept { Unit {0} → Unit {0} }
        ensures answer { Unit {0} → result ≡ reading (whole_blocks self.old.words.now) (block_at self.old.words.now) block }
        ensures own { Own block result }
        ensures same { Unit {0} → whole_blocks self.new.words.now ≡ whole_blocks self.old.words.now }
        ensures blocks { Unit {0} → block_at self.new.words.now ≡ block_at self.old.words.now }
        ensures list { self.new.words.now ≡ self.old.words.now }
        ensures named { self.new.words.ghost_name ≡ self.old.words.ghost_name }
    {
        let number = number_below(self.count_blocks(), block)?;
        Ok(self.fetch(number))
    }

    // Besides what the trait says: the words of no other block, and none past the last, are altered.
    fn write(&mut self, block: PhysicalBlock, words: Words) -> Result<(), MemoryFault>
        ensures kept { Unit {0} → Unit {0} }
        ensures answer { Unit {0} → result ≡ writing (whole_blocks self.old.words.now) block }
        ensures own { Own block result }
        ensures same { Unit {0} → whole_blocks self.new.words.now ≡ whole_blocks self.old.words.now }
        ensures blocks { Unit {0} → block_at self.new.words.now ≡ written (whole_blocks self.old.words.now) (block_at self.old.words.now) block words }
        ensures list { self.new.words.now ≡ stored self.old.words.now block words }
        ensures named { self.new.words.ghost_name ≡ self.old.words.ghost_name }
    {
        let number = number_below(self.count_blocks(), block)?;
        self.store(number, words);
        Ok(())
    }
}
