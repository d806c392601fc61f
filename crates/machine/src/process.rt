// The calls of the operating system: a switch of a processor's process, and changes of the map.
ghost use Rattle.machine.specs.Refusals.{Tells, remap_fault, switch_fault};
ghost use Rattle.machine.specs.State.{Performs};
ghost use Rattle.rules.specs.Calls.{nothing};
ghost use Rattle.rules.specs.Run.{entering, erasing, switching};

use crate::machine::Machine;
use base::block::{Frame, Page, Process};
use base::size::PROCESSES;
use caches::count::count_up;
use caches::swap::swap_lines;
use faults::machine_fault::{Caller, MachineFault};
use memory::memory::Memory;
use paging::map::{ChangeableMap, Map};
use processors::remap::swap_pages;
use records::record::ProcessorNumber;
use replacement::rule::Rule;

impl<M: Map, S: Memory, V: Rule, R: Rule> Machine<M, S, V, R> {
    // The processor goes over to a process, and its valid lines become swapped.
    pub fn switch(
        &mut self,
        processor: ProcessorNumber,
        process: Process,
    ) -> Result<(), MachineFault>
        ensures { Performs M.Map S.Memory V.Rule R.Rule (switching processor.0 process.0) self.old self.new (Tells (λ _. nothing) (switch_fault processor) result) }
    {
        self.admit(Caller::Processor(processor))?;
        let cpu = self.locate(processor)?;
        if process.0 >= PROCESSES {
            return Err(MachineFault::NoProcess(processor));
        }
        swap_lines(&mut self.processors[cpu], process);
        count_up(&mut self.accepted);
        Ok(())
    }
}

impl<M: ChangeableMap, S: Memory, V: Rule, R: Rule> Machine<M, S, V, R> {
    // This call and the next differ in the map's operation and what it is given: as one, that would be a switch.

    // A page is mapped to a frame; the valid lines of the page become swapped on every processor that runs the process.
    pub fn enter(&mut self, process: Process, page: Page, frame: Frame) -> Result<(), MachineFault>
        ensures { Performs M.Map S.Memory V.Rule R.Rule (entering process.0 page.0 frame.0) self.old self.new (Tells (λ _. nothing) (remap_fault page) result) }
    {
        self.admit(Caller::Nobody)?;
        self.map
            .enter(process, page, frame)
            .map_err(|fault| (fault, Caller::Nobody))?;
        swap_pages(&mut self.processors, process, page);
        count_up(&mut self.accepted);
        Ok(())
    }

    // A page is left without a frame; its valid lines become swapped on every processor that runs the process.
    pub fn erase(&mut self, process: Process, page: Page) -> Result<(), MachineFault>
        ensures { Performs M.Map S.Memory V.Rule R.Rule (erasing process.0 page.0) self.old self.new (Tells (λ _. nothing) (remap_fault page) result) }
    {
        self.admit(Caller::Nobody)?;
        self.map
            .erase(process, page)
            .map_err(|fault| (fault, Caller::Nobody))?;
        swap_pages(&mut self.processors, process, page);
        count_up(&mut self.accepted);
        Ok(())
    }
}
