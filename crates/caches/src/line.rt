// Lines of the V-cache freed, moved, filled and written.
ghost use Rattle.std.specs.Prelude.{◌≡◌, ℕ, ◌<◌, true, false};
ghost use Rattle.base.specs.Sizes.{block_words};
ghost use Rattle.caches.specs.Filled.{line_of};
ghost use Rattle.caches.specs.Ranged.{ChildIn, Ranged};
ghost use Rattle.rules.specs.Bus.{clean_child};
ghost use Rattle.rules.specs.Cache.{entry_at, filled, free_child, free_line, line_at, marked_dirty, moved, put_entry, put_line, retagged, stored, unlinked, vdirty_of, with_child};
ghost use Rattle.rules.specs.Invariant.{Filled};
ghost use Rattle.rules.specs.Sizes.{r_sets, r_ways, v_sets, v_ways};

use crate::blank::no_line;
use crate::cell::{entry_at, line_at, put_entry, put_line};
use base::block::VirtualBlock;
use base::size::BLOCK_WORDS;
use tables::types::{Child, LineState, Place, Processor, R_SETS, R_WAYS, REntry, VLine};

// An entry without its child, whose words it takes where they are newer.
fn unlink(entry: REntry, line: &VLine) -> REntry
    ensures { result ≡ unlinked entry line.now }
{
    REntry {
        words: if line.dirty { line.words } else { entry.words },
        rdirty: line.dirty || entry.rdirty,
        child: Child::NoChild,
        ..entry
    }
}

// A line is emptied, and its dirty words go to its entry.
pub fn free_line(p: &mut Processor, at: Place)
    ensures { Ranged p.old → at.set < v_sets → at.way < v_ways → p.new ≡ free_line p.old at.set at.way }
{
    let line = line_at(p, at);
    if line.state != LineState::Empty {
        let entry = entry_at(p, line.rplace);
        put_entry(p, line.rplace, unlink(entry, &line));
        put_line(p, at, no_line());
    }
}

// The line of a child, if there is one, is emptied.
pub fn free_child(p: &mut Processor, child: Child)
    ensures { Ranged p.old → ChildIn child → p.new ≡ free_child p.old child }
{
    if let Child::At { place, .. } = child {
        free_line(p, place);
    }
}

// A line valid under another tag.
fn valid_under(line: VLine, tag: VirtualBlock) -> VLine
    ensures { result ≡ retagged line tag.0 }
{
    VLine {
        state: LineState::Valid,
        tag,
        ..line
    }
}

// A line becomes valid under another tag.
pub fn retag(p: &mut Processor, at: Place, tag: VirtualBlock)
    ensures { at.set < v_sets → at.way < v_ways → p.new ≡ put_line p.old at.set at.way (retagged (line_at p.old at.set at.way) tag.0) }
{
    let line = line_at(p, at);
    put_line(p, at, valid_under(line, tag));
}

// Whether a child is newer than its entry.
pub(crate) fn is_vdirty(child: Child) -> bool
    ensures { result ≡ vdirty_of child }
{
    matches!(child, Child::At { vdirty: true, .. })
}

// An entry gets another child, which alone is written.
#[tactic(auto, using(crate::proofs::Modulo::modulo), unfolding(rules::specs::Sizes::r_sets, rules::specs::Sizes::r_ways))]
fn set_child(p: &mut Processor, at: Place, child: Child)
    ensures { at.set < r_sets → at.way < r_ways → p.new ≡ put_entry p.old at.set at.way (with_child (entry_at p.old at.set at.way) child) }
{
    p.r[at.set % R_SETS][at.way % R_WAYS].child = child;
}

// A line goes to another place under another tag; its entry is at `rplace`.
pub fn move_line(p: &mut Processor, from: Place, to: Place, rplace: Place, tag: VirtualBlock)
    ensures { from.set < v_sets → from.way < v_ways → to.set < v_sets → to.way < v_ways → rplace.set < r_sets → rplace.way < r_ways → p.new ≡ moved p.old from.set from.way to.set to.way rplace.set rplace.way tag.0 }
{
    let line = line_at(p, from);
    let vdirty = is_vdirty(entry_at(p, rplace).child);
    put_line(p, from, no_line());
    put_line(p, to, valid_under(line, tag));
    set_child(p, rplace, Child::At { place: to, vdirty });
}

// The line of an entry's block, valid and clean.
fn line_of(entry: &REntry, rplace: Place, tag: VirtualBlock) -> VLine
    ensures { result ≡ line_of entry.now rplace tag.0 }
{
    VLine {
        state: LineState::Valid,
        tag,
        words: entry.words,
        dirty: false,
        rplace,
    }
}

// A line is filled from the entry at `rplace`, valid and clean.
pub fn fill_line(p: &mut Processor, to: Place, rplace: Place, tag: VirtualBlock)
    ensures { to.set < v_sets → to.way < v_ways → rplace.set < r_sets → rplace.way < r_ways → p.new ≡ filled p.old to.set to.way rplace.set rplace.way tag.0 }
{
    let entry = entry_at(p, rplace);
    put_line(p, to, line_of(&entry, rplace, tag));
    let child = Child::At {
        place: to,
        vdirty: false,
    };
    set_child(p, rplace, child);
}

// A child, if there is one, that is newer than its entry or is as it.
pub(crate) fn with_vdirty(child: Child, vdirty: bool) -> Child
    ensures newer { vdirty ≡ true → result ≡ marked_dirty child }
    ensures same { vdirty ≡ false → result ≡ clean_child child }
{
    match child {
        Child::NoChild => Child::NoChild,
        Child::At { place, .. } => Child::At { place, vdirty },
    }
}

// A word goes into a filled line, which is then dirty.
pub fn store_word(p: &mut Processor, at: Place, word: usize, value: u32)
    ensures { Ranged p.old → Filled (line_at p.old at.set at.way) → at.set < v_sets → at.way < v_ways → word < block_words → p.new ≡ stored p.old at.set at.way word value }
{
    let mut line = line_at(p, at);
    line.words[word % BLOCK_WORDS] = value;
    line.dirty = true;
    put_line(p, at, line);
    let child = entry_at(p, line.rplace).child;
    set_child(p, line.rplace, with_vdirty(child, true));
}
