// The empty line and the absent entry.
ghost use Rattle.std.specs.Prelude.{◌≡◌};
ghost use Rattle.rules.specs.Cache.{no_entry, no_line};

use tables::types::{REntry, VLine};

// A line that holds nothing.
pub fn no_line() -> VLine
    ensures { result ≡ no_line }
{
    VLine::default()
}

// An entry that holds nothing.
pub fn no_entry() -> REntry
    ensures { result ≡ no_entry }
{
    REntry::default()
}
