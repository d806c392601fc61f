// An entry claimed for a write.
ghost use Rattle.std.specs.Prelude.{◌≡◌, ◌<◌};
ghost use Rattle.rules.specs.Cache.{entry_at, put_entry, with_state};
ghost use Rattle.rules.specs.Calls.{needs_upgrade};
ghost use Rattle.rules.specs.Sizes.{r_sets, r_ways};
ghost use Rattle.tables.specs.declared.types.EntryState.TheVariants.{Private};

use caches::cell::{entry_at, put_entry};
use tables::types::{EntryState, Place, Processor, REntry};

// Whether a write finds the entry shared, so that the others must drop the block first.
pub fn needs_upgrade(value: Option<u32>, entry: &REntry) -> bool
    ensures { result ≡ needs_upgrade value entry.now }
{
    value.is_some() && entry.state == EntryState::Shared
}

// An entry becomes private.
pub fn make_private(p: &mut Processor, home: Place)
    ensures { home.set < r_sets → home.way < r_ways → p.new ≡ put_entry p.old home.set home.way (with_state (entry_at p.old home.set home.way) Private) }
{
    let entry = REntry {
        state: EntryState::Private,
        ..entry_at(p, home)
    };
    put_entry(p, home, entry);
}
