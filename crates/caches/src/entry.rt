// Entries of the R-cache that lose their block.
ghost use Rattle.std.specs.Prelude.{◌≡◌, ℕ, ◌-◌, ◌^◌, ◌<◌};
ghost use Rattle.rules.specs.Cache.{entry_at, evict as evicted};
ghost use Rattle.rules.specs.Sizes.{r_sets, r_ways};

use crate::blank::no_entry;
use crate::cell::{entry_at, put_entry};
use crate::count::count_up;
use tables::types::{EntryState, Place, Processor, REntry};

// An entry becomes absent, and is counted as replaced if it was there; answers the entry as it was.
pub fn evict(p: &mut Processor, at: Place) -> REntry
    ensures processor { at.set < r_sets → at.way < r_ways → p.old.counts.replaced < 2 ^ 32 - 1 → p.new ≡ evicted p.old at.set at.way }
    ensures answer { at.set < r_sets → at.way < r_ways → result ≡ entry_at p.old at.set at.way }
{
    let entry = entry_at(p, at);
    if entry.state != EntryState::Absent {
        put_entry(p, at, no_entry());
        count_up(&mut p.counts.replaced);
    }
    entry
}
