ghost use Rattle.paging.specs.Frames.{straight};
ghost use Rattle.std.proofs.Common.{rules};

use crate::fault::MapFault;
use crate::map::{Map, check_named};
use base::block::{Frame, Page, Process};
use base::size::{FRAMES, PAGE_BLOCKS};

// Page g of process p at frame (g + 8 p) modulo 64.
#[derive(Clone, Copy, Debug, PartialEq, Eq)]
pub struct StraightMap;

impl Map for StraightMap {
    ghost frame = { λ _. straight };

    ghost sound = { λ _. Unit {0} };

    ghost within = { Prim.search rules };

    fn frame_of(&mut self, process: Process, page: Page) -> Result<Frame, MapFault> {
        check_named(process, page)?;
        let frame = (page.0 + PAGE_BLOCKS * u16::from(process.0)) % u16::from(FRAMES);
        Ok(Frame(frame as u8))
    }
}
