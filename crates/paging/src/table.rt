ghost use Rattle.std.specs.Prelude.{◌≡◌, ◌*◌, true, length, replicate, Some, None, Option, ok_or};
ghost use Rattle.base.specs.Sizes.{pages, processes};
ghost use Rattle.paging.specs.Frames.{Small, changing, entry_put, flat, named, slot_of, unmapped};
ghost use Rattle.std.proofs.Common.{rules};
ghost use Rattle.std.proofs.lemmas.Grind.{common_steps};
ghost use Rattle.paging.specs.declared.fault.MapFault.TheVariants.{OutOfRange};

use crate::fault::MapFault;
use crate::map::{ChangeableMap, Map, check_named};
use base::block::{Frame, Page, Process};
use base::size::{FRAMES, PAGES, PROCESSES};

const ENTRIES: usize = PROCESSES as usize * PAGES as usize;

// A table with an entry for each page of each process, in one list and not in a list for each process: the words that
// crates above use for a table's meaning (`flat`, `Small`) are of one list.
#[derive(Clone, Copy)]
pub struct FlatTable {
    entries: [Option<Frame>; ENTRIES],
}

// In a function of its own, so that the proof of what makes a table sees one list and not 512 entries.
fn no_entries() -> [Option<Frame>; ENTRIES]
    ensures { result ≡ replicate (processes * pages) None }
{
    [None; ENTRIES]
}

impl FlatTable {
    // No page has a frame.
    pub fn new() -> FlatTable
        ensures sound { Small result.entries }
        ensures frames { flat result.entries ≡ unmapped }
    {
        FlatTable {
            entries: no_entries(),
        }
    }

    // Replaces the entry of a page, where process and page are in their ranges.
    fn put(&mut self, process: Process, page: Page, entry: Option<Frame>) -> Result<(), MapFault>
        ensures answer { result ≡ changing (named process.0 page.0) page }
        ensures size { named process.0 page.0 ≡ true → length self.old.entries ≡ processes * pages }
        ensures entries { self.new.entries ≡ entry_put (slot_of process.0 page.0) self.old.entries entry }
    {
        let slot = slot_of(process, page)?;
        self.entries[slot] = entry;
        Ok(())
    }
}

// Where the entry of a page stands, if process and page are in their ranges.
fn slot_of(process: Process, page: Page) -> Result<usize, MapFault>
    ensures { result ≡ ok_or (slot_of process.0 page.0) (OutOfRange page) }
{
    check_named(process, page)?;
    Ok(usize::from(process.0) * usize::from(PAGES) + usize::from(page.0))
}

impl Map for FlatTable {
    ghost frame = { λ s. flat s.entries };

    ghost sound = { λ s. Small s.entries };

    ghost within = { Prim.search (rules, common_steps) };

    fn frame_of(&mut self, process: Process, page: Page) -> Result<Frame, MapFault> {
        let slot = slot_of(process, page)?;
        self.entries[slot].ok_or(MapFault::NoFrame { page })
    }
}

impl ChangeableMap for FlatTable {
    #[tactic(auto, using(crate::proofs::Flat::flat_entered))]
    fn enter(&mut self, process: Process, page: Page, to: Frame) -> Result<(), MapFault> {
        if to.0 >= FRAMES {
            return Err(MapFault::OutOfRange { page });
        }
        self.put(process, page, Some(to))
    }

    fn erase(&mut self, process: Process, page: Page) -> Result<(), MapFault> {
        self.put(process, page, None)
    }
}
