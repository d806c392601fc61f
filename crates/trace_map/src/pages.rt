ghost use Rattle.std.specs.Prelude.{◌≡◌, IfOk};
ghost use Rattle.trace_map.specs.Pages.{mapped, sharing};

use base::block::{Frame, Page, Process};
use base::size::{PAGES, PROCESSES};
use paging::map::Map;
use paging::mapped::MappedPage;
use std::alloc::{AllocError, Global};

// All mapped pages, in the order of processes and pages, by look-up alone.
pub fn mapped_pages<M: Map>(heap: Global, map: &mut M) -> Result<Vec<MappedPage>, AllocError>
    ensures kept { M.Map.sound map.old → M.Map.sound map.new }
    ensures frames { M.Map.sound map.old → M.Map.frame map.new ≡ M.Map.frame map.old }
    ensures rows { M.Map.sound map.old → IfOk result (λ v. v.items ≡ mapped (M.Map.frame map.old)) }
{
    let mut rows = Vec::new(heap);
    // The numbers are what is gone through: as processes and pages first, the proof of the loops would not have them.
    for p in 0..PROCESSES {
        for g in 0..PAGES {
            let (process, page) = (Process(p), Page(g));
            if let Ok(frame) = map.frame_of(process, page) {
                rows.push(MappedPage {
                    process,
                    page,
                    frame,
                })?;
            }
        }
    }
    Ok(rows)
}

// The rows of one frame, in their order.
pub fn sharers(
    heap: Global,
    rows: &[MappedPage],
    frame: Frame,
) -> Result<Vec<MappedPage>, AllocError>
    ensures { IfOk result (λ v. v.items ≡ sharing frame rows.now) }
{
    rows.iter()
        .copied()
        .filter(|row| row.frame == frame)
        .collect(heap)
}
