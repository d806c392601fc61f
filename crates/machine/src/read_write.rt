// Reads and writes.
ghost use Rattle.std.specs.Prelude.{◌≡◌};
ghost use Rattle.base.specs.Blocks.{block_of, page_of};
ghost use Rattle.machine.specs.Answers.{access_answer};
ghost use Rattle.machine.specs.Paths.{Refers};
ghost use Rattle.machine.specs.Refusals.{Tells, reference_fault};
ghost use Rattle.machine.specs.State.{Performs};
ghost use Rattle.rules.specs.Run.{reading, writing};

use crate::answer::Access;
use crate::machine::Machine;
use crate::reference::Reference;
use base::block::Address;
use caches::find::find_line;
use faults::machine_fault::{Caller, MachineFault};
use memory::memory::Memory;
use paging::map::Map;
use records::record::ProcessorNumber;
use replacement::rule::Rule;

impl<M: Map, S: Memory, V: Rule, R: Rule> Machine<M, S, V, R> {
    // A read, or a write of a value.
    fn reference(
        &mut self,
        processor: ProcessorNumber,
        address: u16,
        value: Option<u32>,
    ) -> Result<Access, MachineFault>
        ensures { Refers M.Map S.Memory V.Rule R.Rule processor address value self.old self.new result }
    {
        self.admit(Caller::Processor(processor))?;
        self.locate(processor)?;
        let address = Address::try_from(address).map_err(|_| MachineFault::NoAddress(processor))?;
        let r = Reference {
            processor,
            address,
            value,
        };
        // docs/DECISIONS.md fixes `let .. else` here: its else side starts the path of a miss.
        let Some(way) = find_line(&self.processors[r.cpu()], r.block()) else {
            return self.miss(r);
        };
        self.hit(r, way)
    }

    // A processor reads the word at an address of its process.
    pub fn read(&mut self, processor: ProcessorNumber, address: u16) -> Result<Access, MachineFault>
        ensures { Performs M.Map S.Memory V.Rule R.Rule (reading processor.0 address) self.old self.new (Tells access_answer (reference_fault processor (record { 0 = page_of (block_of address) })) result) }
    {
        self.reference(processor, address, None)
    }

    // A processor writes a word.
    pub fn write(
        &mut self,
        processor: ProcessorNumber,
        address: u16,
        value: u32,
    ) -> Result<Access, MachineFault>
        ensures { Performs M.Map S.Memory V.Rule R.Rule (writing processor.0 address value) self.old self.new (Tells access_answer (reference_fault processor (record { 0 = page_of (block_of address) })) result) }
    {
        self.reference(processor, address, Some(value))
    }
}
