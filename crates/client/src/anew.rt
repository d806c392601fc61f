// The same on a machine made here: nothing is left to the caller.
ghost use Rattle.std.specs.Prelude.{◌≡◌, Ok};

use crate::back::write_and_read_back;
use crate::two_pages::TwoPages;
use base::block::{Frame, Process};
use faults::machine_fault::MachineFault;
use machine::machine::Machine;
use memory::word_memory::WordMemory;
use paging::buffer::TranslationBuffer;
use paging::table::FlatTable;
use records::record::ProcessorNumber;
use replacement::least_recently_used::LeastRecentlyUsed;

// words of the memory
const MEMORY_WORDS: usize = 2048;

// Over four processors, 512 zero blocks, an empty flat table under a translation buffer, and least recently used, no
// call is refused, and the value comes back.
pub fn read_back_anew(value: u32) -> Result<u32, MachineFault>
    ensures { result ≡ Ok value }
{
    let mut blocks = [0; MEMORY_WORDS];
    let mut machine = Machine::new(
        TranslationBuffer::new(FlatTable::new()),
        WordMemory::new(&mut blocks),
        LeastRecentlyUsed,
        LeastRecentlyUsed,
        4,
        0,
    );
    let at = TwoPages {
        process: Process(1),
        first: 6,
        second: 294,
        frame: Frame(5),
    };
    write_and_read_back(&mut machine, ProcessorNumber(2), at, Process(3), value)
}
