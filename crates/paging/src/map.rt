ghost use Rattle.std.specs.Prelude.{◌≡◌, ℕ, ◌+◌, ◌*◌, ◌%◌, ◌<◌, Bool, true, Some, None, Option};
ghost use Rattle.paging.specs.Frames.{Within, block_in, changed, changing, enters, looked, named, translated};

use crate::fault::MapFault;
use base::block::{Frame, Page, PhysicalBlock, Process, VirtualBlock};
use base::size::{PAGE_BLOCKS, PAGES, PROCESSES};

// From the pages of processes to frames. Process and page stay two parameters of each call: a struct of both would be taken
// apart in each body.
pub trait Map {
    // By process and page, a frame or none.
    ghost frame: { Self → ℕ → ℕ → Option ℕ };

    // What an implementation keeps from its making on.
    ghost sound: { Self → Type 0 };

    // The frame of a page.
    fn frame_of(&mut self, process: Process, page: Page) -> Result<Frame, MapFault>
        ensures kept { sound self.old → sound self.new }
        ensures answer { sound self.old → result ≡ looked (frame self.old) process page }
        ensures frames { sound self.old → frame self.new ≡ frame self.old };

    // The physical block of a virtual one.
    fn look_up(&mut self, process: Process, block: VirtualBlock) -> Result<PhysicalBlock, MapFault>
        ensures kept { sound self.old → sound self.new }
        ensures answer { sound self.old → result ≡ translated (frame self.old) process block }
        ensures frames { sound self.old → frame self.new ≡ frame self.old }
    {
        let frame = self.frame_of(process, block.page())?;
        Ok(block_in(frame, block))
    }

    ghost within: { (s : Self) → sound s → Within (frame s) };
}

// The block of a frame that stands where a virtual block stands in its page: the only way from one to the other.
pub(crate) fn block_in(frame: Frame, block: VirtualBlock) -> PhysicalBlock
    ensures { result ≡ block_in frame.0 block.0 }
{
    PhysicalBlock::from(u16::from(frame.0) * PAGE_BLOCKS + block.in_page())
}

// Refuses a process or a page that is out of its range.
pub(crate) fn check_named(process: Process, page: Page) -> Result<(), MapFault>
    ensures { result ≡ changing (named process.0 page.0) page }
{
    if process.0 < PROCESSES && page.0 < PAGES {
        Ok(())
    } else {
        Err(MapFault::OutOfRange { page })
    }
}

// A map whose entries can be changed.
pub trait ChangeableMap: Map {
    // Maps a page to a frame.
    fn enter(&mut self, process: Process, page: Page, to: Frame) -> Result<(), MapFault>
        ensures kept { Self.Map.sound self.old → Self.Map.sound self.new }
        ensures answer { Self.Map.sound self.old → result ≡ changing (enters process page to) page }
        ensures frames { Self.Map.sound self.old → Self.Map.frame self.new ≡ changed (enters process page to) (Self.Map.frame self.old) process.0 page.0 (Some to.0) };

    // Leaves a page without a frame.
    fn erase(&mut self, process: Process, page: Page) -> Result<(), MapFault>
        ensures kept { Self.Map.sound self.old → Self.Map.sound self.new }
        ensures answer { Self.Map.sound self.old → result ≡ changing (named process.0 page.0) page }
        ensures frames { Self.Map.sound self.old → Self.Map.frame self.new ≡ changed (named process.0 page.0) (Self.Map.frame self.old) process.0 page.0 None };
}
