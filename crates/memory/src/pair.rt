ghost use Rattle.std.specs.Prelude.{◌≡◌};
ghost use Rattle.memory.specs.Halves.{halving, pair_count, pair_few, pair_four, pair_holds};
ghost use Rattle.memory.specs.Words.{Own};

use crate::fault::MemoryFault;
use crate::memory::{Memory, number_below};
use base::block::{PhysicalBlock, Words};
use base::size::MOST_BLOCKS;

// Two memories as one: even blocks in the first, odd ones in the second, each at half its number.
#[derive(Drop)]
pub struct Pair<A, B> {
    even: A,
    odd: B,
}

// Which of the two memories a block is in, and which block of that one it is.
#[derive(Clone, Copy)]
enum Half {
    Even(PhysicalBlock),
    Odd(PhysicalBlock),
}

impl<A: Memory, B: Memory> Pair<A, B> {
    pub fn new(even: A, odd: B) -> Pair<A, B>
        ensures evens { result.even ≡ even }
        ensures odds { result.odd ≡ odd }
        ensures sound { A.Memory.sound even → B.Memory.sound odd → A.Memory.sound result.even × B.Memory.sound result.odd }
    {
        Pair { even, odd }
    }

    // Where a block of the pair is kept.
    fn half_of(&self, block: PhysicalBlock) -> Result<Half, MemoryFault>
        ensures answer { A.Memory.sound self.now.even → B.Memory.sound self.now.odd → result ≡ halving (pair_count (A.Memory.count self.now.even) (B.Memory.count self.now.odd)) block }
        ensures own { Own block result }
    {
        let number = number_below(self.count_blocks(), block)?;
        let at = PhysicalBlock::from(number / 2);
        Ok(if number % 2 == 0 {
            Half::Even(at)
        } else {
            Half::Odd(at)
        })
    }

    // The two memories are handed back.
    pub fn into_parts(self) -> (A, B)
        ensures evens { result.0 ≡ self.even }
        ensures odds { result.1 ≡ self.odd }
    {
        let Pair { even, odd } = self;
        (even, odd)
    }
}

impl<A: Memory, B: Memory> Memory for Pair<A, B> {
    ghost count = { λ s. pair_count (A.Memory.count s.even) (B.Memory.count s.odd) };

    ghost holds = { λ s. pair_holds (A.Memory.holds s.even) (B.Memory.holds s.odd) };

    ghost sound = { λ s. A.Memory.sound s.even × B.Memory.sound s.odd };

    ghost few = { λ s _. pair_few (A.Memory.count s.even) (B.Memory.count s.odd) };

    ghost four = { λ s b h. pair_four (A.Memory.count s.even) (B.Memory.count s.odd) (A.Memory.holds s.even) (B.Memory.holds s.odd) (λ k. A.Memory.four s.even k h.0) (λ k. B.Memory.four s.odd k h.1) b };

    fn count_blocks(&self) -> u16 {
        let even = self.even.count_blocks();
        let odd = self.odd.count_blocks();
        2 * even.min(odd).min(MOST_BLOCKS / 2)
    }

    fn read(&mut self, block: PhysicalBlock) -> Result<Words, MemoryFault> {
        let answer = match self.half_of(block)? {
            Half::Even(at) => self.even.read(at),
            Half::Odd(at) => self.odd.read(at),
        };
        answer.map_err(|_| MemoryFault::Outside { block })
    }

    fn write(&mut self, block: PhysicalBlock, words: Words) -> Result<(), MemoryFault> {
        let answer = match self.half_of(block)? {
            Half::Even(at) => self.even.write(at, words),
            Half::Odd(at) => self.odd.write(at, words),
        };
        answer.map_err(|_| MemoryFault::Outside { block })
    }
}
