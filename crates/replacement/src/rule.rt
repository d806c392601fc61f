ghost use Rattle.std.specs.Prelude.{◌≡◌, ℕ, ◌%◌, Bool, true, false, List, length, slice_index_or};
ghost use Rattle.replacement.specs.Sizes.{ways};

// the ways of a set
pub const WAYS: usize = 4;

// A flag for each way of a set: whether it is asked for.
pub type WaySet = [bool; WAYS];

// A replacement rule. It keeps one word for each set of a cache, and does not change itself.
pub trait Rule {
    // the first word
    ghost first: { Self → ℕ };

    // the next word, from the word and the way used
    ghost used: { Self → ℕ → ℕ → ℕ };

    // the next word, from the word and the way loaded
    ghost loaded: { Self → ℕ → ℕ → ℕ };

    // the way chosen, from the word and the ways asked for
    ghost choice: { Self → ℕ → List Bool → ℕ };

    // The word of a set that nothing was loaded into yet.
    fn first_word(&self) -> u32
        ensures { result ≡ first self.now };

    // The next word of a set where a way was used.
    fn after_use(&self, word: u32, way: u8) -> u32
        ensures { result ≡ used self.now word way };

    // The next word of a set where a way was loaded.
    fn after_load(&self, word: u32, way: u8) -> u32
        ensures { result ≡ loaded self.now word way };

    // The way to replace, among those asked for; way 0 where none is.
    fn choose(&self, word: u32, asked: WaySet) -> u8
        ensures { result ≡ choice self.now word asked };

    // Where some way is asked for, the choice is one asked for.
    ghost chosen: { (s : Self) (w : ℕ) (ws : List Bool) (i : ℕ) → length ws ≡ ways → slice_index_or ws i false ≡ true → slice_index_or ws (choice s w ws) false ≡ true };

    // Where no way is asked for, the choice is way 0.
    ghost none: { (s : Self) (w : ℕ) (ws : List Bool) → ((i : ℕ) → slice_index_or ws i false ≡ false) → choice s w ws ≡ 0 };

    // A way given counts modulo the ways of a set.
    ghost used_modulo: { (s : Self) (w x : ℕ) → used s w x ≡ used s w (x % ways) };

    ghost loaded_modulo: { (s : Self) (w x : ℕ) → loaded s w x ≡ loaded s w (x % ways) };
}

// A rule that is lent is the rule.
impl<T: Rule> Rule for &T {
    ghost first = { λ s. T.Rule.first s.now };

    ghost used = { λ s. T.Rule.used s.now };

    ghost loaded = { λ s. T.Rule.loaded s.now };

    ghost choice = { λ s. T.Rule.choice s.now };

    ghost chosen = { λ s. T.Rule.chosen s.now };

    ghost none = { λ s. T.Rule.none s.now };

    ghost used_modulo = { λ s. T.Rule.used_modulo s.now };

    ghost loaded_modulo = { λ s. T.Rule.loaded_modulo s.now };

    fn first_word(&self) -> u32 {
        T::first_word(*self)
    }

    fn after_use(&self, word: u32, way: u8) -> u32 {
        T::after_use(*self, word, way)
    }

    fn after_load(&self, word: u32, way: u8) -> u32 {
        T::after_load(*self, word, way)
    }

    fn choose(&self, word: u32, asked: WaySet) -> u8 {
        T::choose(*self, word, asked)
    }
}
