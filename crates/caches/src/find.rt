// The search of a set for a block.
// Lines and entries have one each: they differ in the table and in the test. They count the ways, and are no call of
// `position`, so that a search that leaves out a way can be planted and is refused for its answer.
ghost use Rattle.std.specs.Prelude.{◌≡◌, ℕ, ◌<◌};
ghost use Rattle.caches.specs.Found.{FoundBelow};
ghost use Rattle.rules.specs.Cache.{hits, holds, r_find, v_find};
ghost use Rattle.rules.specs.Sizes.{r_ways, v_ways};

use base::block::{PhysicalBlock, VirtualBlock};
use tables::types::{
    EntryState, LineState, Processor, R_SETS, R_WAYS, REntry, V_SETS, V_WAYS, VLine,
};

// A valid line with the tag.
pub fn is_hit(line: &VLine, tag: VirtualBlock) -> bool
    ensures { result ≡ hits tag.0 line.now }
{
    line.state == LineState::Valid && line.tag == tag
}

// The way of the line that a virtual block hits.
pub fn find_line(p: &Processor, block: VirtualBlock) -> Option<usize>
    ensures way { result ≡ v_find p.now block.0 }
    ensures within { FoundBelow v_ways result }
{
    let set = usize::from(block) % V_SETS;
    for way in 0..V_WAYS {
        if is_hit(&p.v[set][way], block) {
            return Some(way);
        }
    }
    None
}

// An entry that is there and holds the block.
pub fn is_holder(entry: &REntry, block: PhysicalBlock) -> bool
    ensures { result ≡ holds block.0 entry.now }
{
    entry.state != EntryState::Absent && entry.block == block
}

// The way of the entry that holds a block.
pub fn find_entry(p: &Processor, block: PhysicalBlock) -> Option<usize>
    ensures way { result ≡ r_find p.now block.0 }
    ensures within { FoundBelow r_ways result }
{
    let set = usize::from(block) % R_SETS;
    for way in 0..R_WAYS {
        if is_holder(&p.r[set][way], block) {
            return Some(way);
        }
    }
    None
}
