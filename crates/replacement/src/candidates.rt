ghost use Rattle.std.specs.Prelude.{◌≡◌, ℕ, List, false, slice_index_or};
ghost use Rattle.std.specs.Iterator.{IsFinite};
ghost use Rattle.std.proofs.lemmas.Iterator.{YieldsList};
ghost use Rattle.replacement.specs.Asked.{first_asked};

use crate::rule::WaySet;

// Whether a way is asked for; a number past the last way is not.
fn is_asked(asked: &WaySet, way: u8) -> bool
    ensures { result ≡ slice_index_or asked.now way false }
{
    asked.get(usize::from(way)).copied().unwrap_or(false)
}

// The first of the candidates that is asked for, or 0 where none is.
pub(crate) fn first_asked<I: Iterator<Item = u8> + Drop>(asked: &WaySet, mut order: I) -> u8
    requires can { I.can_next order }
    requires ends { IsFinite (I.remaining order) }
    ensures { (ways : List ℕ) → YieldsList I.next_gives (λ way. way) order ways → result ≡ first_asked asked.now ways }
{
    order.find(|way| is_asked(asked, *way)).unwrap_or(0)
}
