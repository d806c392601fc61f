// What a processor does where it sees a message of another on the bus.
ghost use Rattle.std.specs.Prelude.{◌≡◌, ℕ, ◌-◌, ◌%◌, ◌^◌, ◌<◌};
ghost use Rattle.caches.specs.Ranged.{ChildIn, Ranged};
ghost use Rattle.caches.specs.Supply.{supplied_with};
ghost use Rattle.rules.specs.Bus.{clean_at, current, empty_at, modified, seen_by, shared_by, take_by};
ghost use Rattle.rules.specs.Cache.{r_find};

use crate::blank::{no_entry, no_line};
use crate::cell::{entry_at, home, line_at, put_entry, put_line};
use crate::count::count_up;
use crate::find::find_entry;
use crate::line::{is_vdirty, with_vdirty};
use base::block::{PhysicalBlock, Words};
use tables::types::{Child, EntryState, Processor, REntry, Snoop};

// The line of a child is emptied.
fn empty_child(p: &mut Processor, child: Child)
    ensures { ChildIn child → p.new ≡ empty_at p.old child }
{
    if let Child::At { place, .. } = child {
        put_line(p, place, no_line());
    }
}

// Another processor takes the block: the entry that holds it becomes absent, and its child empty.
#[tactic(auto, using(crate::proofs::Snoops::child_in, rules::proofs::Sizes::r_set_in))]
pub fn snoop_take(p: &mut Processor, block: PhysicalBlock)
    ensures { Ranged p.old → p.old.counts.invalidated < 2 ^ 32 - 1 → p.new ≡ take_by (r_find p.old block.0) block.0 p.old }
{
    let Some(way) = find_entry(p, block) else {
        return;
    };
    let at = home(block, way);
    let entry = entry_at(p, at);
    empty_child(p, entry.child);
    put_entry(p, at, no_entry());
    count_up(&mut p.counts.invalidated);
}

// An entry whose block, or its child's, is newer than memory.
fn is_modified(entry: &REntry) -> bool
    ensures { result ≡ modified entry.now }
{
    entry.rdirty || is_vdirty(entry.child)
}

// What an entry's block reads as.
fn current_words(p: &Processor, entry: &REntry) -> Words
    ensures { ChildIn entry.now.child → result ≡ current p.now entry.now }
{
    match entry.child {
        Child::At {
            place,
            vdirty: true,
        } => line_at(p, place).words,
        _ => entry.words,
    }
}

// The line of a child is no longer dirty.
fn clean_line(p: &mut Processor, child: Child)
    ensures { ChildIn child → p.new ≡ clean_at p.old child }
{
    if let Child::At { place, .. } = child {
        let mut line = line_at(p, place);
        line.dirty = false;
        put_line(p, place, line);
    }
}

// An entry that has supplied its words: shared and clean.
fn supply(entry: &REntry, words: Words) -> REntry
    ensures { result ≡ supplied_with entry.now words }
{
    REntry {
        state: EntryState::Shared,
        words,
        rdirty: false,
        child: with_vdirty(entry.child, false),
        ..*entry
    }
}

// Another processor, or the device, reads the block: a holder shares it, and supplies it where it has it modified.
#[tactic(auto, using(crate::proofs::Snoops::child_in, rules::proofs::Sizes::r_set_in))]
pub fn snoop_read(p: &mut Processor, block: PhysicalBlock) -> Snoop
    ensures processor { Ranged p.old → p.new ≡ shared_by (r_find p.old block.0) block.0 p.old }
    ensures answer { Ranged p.old → result ≡ seen_by (r_find p.old block.0) block.0 p.old }
{
    let Some(way) = find_entry(p, block) else {
        return Snoop::NotHeld;
    };
    let at = home(block, way);
    let entry = entry_at(p, at);
    if is_modified(&entry) {
        let words = current_words(p, &entry);
        clean_line(p, entry.child);
        put_entry(p, at, supply(&entry, words));
        Snoop::Supplied { words }
    } else {
        let state = EntryState::Shared;
        put_entry(p, at, REntry { state, ..entry });
        Snoop::Held
    }
}
