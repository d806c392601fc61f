// Entries of a processor counted.
ghost use Rattle.std.specs.Prelude.{◌≡◌, ◌≤◌};
ghost use Rattle.rules.specs.Invariant.{in_row, resident};
ghost use Rattle.rules.specs.Sizes.{r_ways};

use tables::types::{EntryState, Processor, R_SETS, R_WAYS, REntry};

// How many entries of a set are present.
fn present_in(set: &[REntry; R_WAYS]) -> u32
    ensures count { result ≡ in_row set.now }
    ensures within { result ≤ r_ways }
{
    set.iter()
        .map(|entry| u32::from(entry.state != EntryState::Absent))
        .sum()
}

// How many entries of all sets are present.
fn present_in_all(sets: &[[REntry; R_WAYS]; R_SETS]) -> u32
    ensures { result ≡ resident sets.now }
{
    let mut count = 0;
    for set in sets {
        count += present_in(set);
    }
    count
}

// How many entries of a processor are present.
pub fn resident_blocks(p: &Processor) -> u32
    ensures { result ≡ resident p.now.r }
{
    present_in_all(&p.r)
}
