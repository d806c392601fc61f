// A change of the map on every processor.
ghost use Rattle.std.specs.Prelude.{◌≡◌, map};
ghost use Rattle.rules.specs.Calls.{swap_pages};

use base::block::{Page, Process};
use caches::swap::swap_page;
use tables::types::Processors;

// The lines of a page are swapped out on every processor that runs the process.
pub fn swap_pages(processors: &mut Processors, process: Process, page: Page)
    ensures { processors.new ≡ map (swap_pages process.0 page.0) processors.old }
{
    for p in processors.iter_mut() {
        swap_page(p, process, page);
    }
}
