ghost use Rattle.std.specs.Prelude.{◌≡◌, reverse};
ghost use Rattle.replacement.specs.Recent.{numbers, oldest, renewed, shift};
ghost use Rattle.std.proofs.Common.{rules};
ghost use Rattle.replacement.specs.Choices.{oldest_lawful};

use crate::candidates::first_asked;
use crate::rule::{Rule, WAYS, WaySet};
use std::array::from_fn;

// What a word of three numbers stays below.
const THREE_NUMBERS: u32 = 64;

// Least recently used. A word has four way numbers of two bits in bits 7 to 0, the newest lowest.
#[derive(Clone, Copy, Debug, PartialEq, Eq)]
pub struct LeastRecentlyUsed;

// The way numbers of a word, the oldest first.
fn oldest_first(word: u32) -> [u8; WAYS]
    ensures { result ≡ reverse (numbers word) }
{
    from_fn(|place| (word >> (6 - 2 * place) & 3) as u8)
}

// The word after one more number: its numbers go up by a place, and the highest goes.
fn shift(word: u32, number: u8) -> u32
    ensures { result ≡ shift word number }
{
    word % THREE_NUMBERS * WAYS as u32 + u32::from(number)
}

// The word with a way first, then the first three of its numbers that differ from the way.
fn renew(word: u32, way: u8) -> u32
    ensures { result ≡ renewed word way }
{
    let newest = way % WAYS as u8;
    let rest = oldest_first(word).iter().copied().fold(0, |rest, number| {
        if number == newest {
            rest
        } else {
            shift(rest, number)
        }
    });
    shift(rest, newest)
}

impl Rule for LeastRecentlyUsed {
    ghost first = { λ _. 27 };

    ghost used = { λ _ w x. renewed w x };

    ghost loaded = { λ _ w x. renewed w x };

    ghost choice = { λ _ w ws. oldest w ws };

    ghost chosen = { λ _ w ws i n e. oldest_lawful w ws i n e };

    ghost none = { Prim.search rules };

    ghost used_modulo = { Prim.search rules };

    ghost loaded_modulo = { Prim.search rules };

    // Way 0 is the oldest and way 3 the newest.
    fn first_word(&self) -> u32 {
        0b00_01_10_11
    }

    fn after_use(&self, word: u32, way: u8) -> u32 {
        renew(word, way)
    }

    // A load counts as a use.
    fn after_load(&self, word: u32, way: u8) -> u32 {
        self.after_use(word, way)
    }

    fn choose(&self, word: u32, asked: WaySet) -> u8 {
        let [a, b, c, d] = oldest_first(word);
        let order = [a, b, c, d, 0, 1, 2, 3];
        first_asked(&asked, order.iter().copied())
    }
}
