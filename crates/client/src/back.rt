// A caller of a machine: what it knows of the words that it reads, by the contracts of its calls alone.
ghost use Rattle.client.specs.Back.{ReadsBack};

use crate::two_pages::{TwoPages, page_at};
use base::block::Process;
use faults::machine_fault::MachineFault;
use machine::machine::Machine;
use memory::memory::Memory;
use paging::map::ChangeableMap;
use records::record::ProcessorNumber;
use replacement::rule::Rule;

// A processor writes a value through the first page, goes over to another process and back, and reads it through the
// second page, which is entered at the same frame only then.
pub fn write_and_read_back<M: ChangeableMap, S: Memory, V: Rule, R: Rule>(
    machine: &mut Machine<M, S, V, R>,
    processor: ProcessorNumber,
    at: TwoPages,
    other: Process,
    value: u32,
) -> Result<u32, MachineFault>
    ensures { ReadsBack M.Map S.Memory V.Rule R.Rule processor.0 at other.0 value machine.old machine.new result }
{
    machine.enter(at.process, page_at(at.first), at.frame)?;
    machine.switch(processor, at.process)?;
    machine.write(processor, at.first, value)?;
    machine.switch(processor, other)?;
    machine.switch(processor, at.process)?;
    machine.enter(at.process, page_at(at.second), at.frame)?;
    let access = machine.read(processor, at.second)?;
    Ok(access.word)
}
