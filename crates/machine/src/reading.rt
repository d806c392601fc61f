// Readings of a processor's tables and counts: they change nothing.
ghost use Rattle.machine.specs.Readings.{Reads, tally_told};
ghost use Rattle.machine.specs.Refusals.{reading_fault};
ghost use Rattle.machine.specs.State.{Performs, board};
ghost use Rattle.rules.specs.Calls.{counts_told, entry_told, line_told};
ghost use Rattle.rules.specs.Run.{counts_reading, entry_reading, line_reading};

use crate::machine::Machine;
use crate::tally::Tally;
use caches::cell::{entry_at, line_at};
use faults::machine_fault::MachineFault;
use memory::memory::Memory;
use paging::map::Map;
use processors::count::resident_blocks;
use records::record::ProcessorNumber;
use replacement::rule::Rule;
use tables::types::{Place, R_SETS, R_WAYS, REntry, V_SETS, V_WAYS, VLine};

impl<M: Map, S: Memory, V: Rule, R: Rule> Machine<M, S, V, R> {
    // This call and the next differ in the table and in what the cell is: what they share is `locate_place`.

    // A line of the V-cache. Set and way are as a reader gives them, in the table or not.
    pub fn line(
        &self,
        processor: ProcessorNumber,
        set: usize,
        way: usize,
    ) -> Result<VLine, MachineFault>
        ensures { Performs M.Map S.Memory V.Rule R.Rule (line_reading processor.0 set way) self.now self.now (Reads (λ (l : VLine). l) (line_told (board M.Map S.Memory V.Rule R.Rule self.now) processor.0 set way) (reading_fault processor) result) }
    {
        let at = Place { set, way };
        let cpu = self.locate_place(processor, at, V_SETS, V_WAYS)?;
        Ok(line_at(&self.processors[cpu], at))
    }

    // An entry of the R-cache.
    pub fn entry(
        &self,
        processor: ProcessorNumber,
        set: usize,
        way: usize,
    ) -> Result<REntry, MachineFault>
        ensures { Performs M.Map S.Memory V.Rule R.Rule (entry_reading processor.0 set way) self.now self.now (Reads (λ (e : REntry). e) (entry_told (board M.Map S.Memory V.Rule R.Rule self.now) processor.0 set way) (reading_fault processor) result) }
    {
        let at = Place { set, way };
        let cpu = self.locate_place(processor, at, R_SETS, R_WAYS)?;
        Ok(entry_at(&self.processors[cpu], at))
    }

    // The counts of a processor.
    pub fn counts(&self, processor: ProcessorNumber) -> Result<Tally, MachineFault>
        ensures { Performs M.Map S.Memory V.Rule R.Rule (counts_reading processor.0) self.now self.now (Reads tally_told (counts_told (board M.Map S.Memory V.Rule R.Rule self.now) processor.0) (reading_fault processor) result) }
    {
        self.is_set_up()?;
        let cpu = self.locate(processor)?;
        let counts = self.processors[cpu].counts;
        Ok(Tally {
            fetched: counts.fetched,
            resident: resident_blocks(&self.processors[cpu]),
            replaced: counts.replaced,
            invalidated: counts.invalidated,
        })
    }
}
