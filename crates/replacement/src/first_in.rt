ghost use Rattle.replacement.specs.Around.{advanced, next_around};
ghost use Rattle.std.proofs.Common.{rules};
ghost use Rattle.replacement.specs.Turns.{next_lawful};

use crate::candidates::first_asked;
use crate::rule::{Rule, WAYS, WaySet};

// First in, first out. The word, modulo the ways of a set, is the way to replace next: the one after the way loaded last.
#[derive(Clone, Copy, Debug, PartialEq, Eq)]
pub struct FirstIn;

impl Rule for FirstIn {
    ghost first = { λ _. 0 };

    ghost used = { λ _ w _. w };

    ghost loaded = { λ _ _ x. advanced x };

    ghost choice = { λ _ w ws. next_around w ws };

    ghost chosen = { λ _ w ws i n e. next_lawful w ws i n e };

    ghost none = { Prim.search rules };

    ghost used_modulo = { Prim.search rules };

    ghost loaded_modulo = { Prim.search rules };

    fn first_word(&self) -> u32 {
        0
    }

    fn after_use(&self, word: u32, _way: u8) -> u32 {
        word
    }

    fn after_load(&self, _word: u32, way: u8) -> u32 {
        (u32::from(way) + 1) % WAYS as u32
    }

    fn choose(&self, word: u32, asked: WaySet) -> u8 {
        let next = (word % WAYS as u32) as u8;
        let order = (0..WAYS as u8).map(|step| (next + step) % WAYS as u8);
        first_asked(&asked, order)
    }
}
