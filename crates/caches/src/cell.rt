#![tactic(auto, using(crate::proofs::Modulo::modulo), unfolding(rules::specs::Sizes::v_sets, rules::specs::Sizes::v_ways, rules::specs::Sizes::r_sets, rules::specs::Sizes::r_ways))]

// The lines and the entries of a processor, read and put by place. Of a place outside the tables nothing is promised:
// its numbers count modulo the sizes.
// Each access is written for both tables: its body is one line, and a generic one would ask that the sizes are not 0.
ghost use Rattle.std.specs.Prelude.{◌≡◌, ◌%◌, ◌<◌};
ghost use Rattle.rules.specs.Cache.{entry_at, line_at, put_entry, put_line};
ghost use Rattle.rules.specs.Sizes.{r_sets, r_ways, v_sets, v_ways};

use base::block::PhysicalBlock;
use tables::types::{Place, Processor, R_SETS, R_WAYS, REntry, V_SETS, V_WAYS, VLine};

// The line at a place.
pub fn line_at(p: &Processor, at: Place) -> VLine
    ensures { at.set < v_sets → at.way < v_ways → result ≡ line_at p.now at.set at.way }
{
    p.v[at.set % V_SETS][at.way % V_WAYS]
}

// A line goes to a place.
pub fn put_line(p: &mut Processor, at: Place, line: VLine)
    ensures { at.set < v_sets → at.way < v_ways → p.new ≡ put_line p.old at.set at.way line }
{
    p.v[at.set % V_SETS][at.way % V_WAYS] = line;
}

// The entry at a place.
pub fn entry_at(p: &Processor, at: Place) -> REntry
    ensures { at.set < r_sets → at.way < r_ways → result ≡ entry_at p.now at.set at.way }
{
    p.r[at.set % R_SETS][at.way % R_WAYS]
}

// An entry goes to a place.
pub fn put_entry(p: &mut Processor, at: Place, entry: REntry)
    ensures { at.set < r_sets → at.way < r_ways → p.new ≡ put_entry p.old at.set at.way entry }
{
    p.r[at.set % R_SETS][at.way % R_WAYS] = entry;
}

// The place of a block in the R-cache, at a way of its set.
pub fn home(block: PhysicalBlock, way: usize) -> Place
    ensures set { result.set ≡ block.0 % r_sets }
    ensures way { result.way ≡ way }
{
    Place {
        set: usize::from(block) % R_SETS,
        way,
    }
}
