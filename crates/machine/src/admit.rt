// The checks that come first.
ghost use Rattle.std.specs.Prelude.{◌≡◌, ℕ, ◌<◌, ◌≤◌, min};
ghost use Rattle.machine.specs.Admits.{Locates, admitted, set_up};
ghost use Rattle.machine.specs.Placing.{LocatesPlace};
ghost use Rattle.rules.specs.Sizes.{most_processors};

use crate::machine::Machine;
use faults::machine_fault::{Caller, MachineFault};
use records::record::ProcessorNumber;
use tables::types::{PROCESSORS, Place};

// As many calls as a machine accepts, readings and taking and releasing the bus left out.
const MOST_ACCEPTED: u32 = 1_000_000;

impl<M, S, V, R> Machine<M, S, V, R> {
    // Whether the machine was set up. Here and in `check` a match: `map_or(Ok(()), ..)` would be no plainer.
    pub(crate) fn is_set_up(&self) -> Result<(), MachineFault>
        ensures { result ≡ set_up self.now.setup }
    {
        match self.setup {
            Some(fault) => Err(MachineFault::Setup(fault)),
            None => Ok(()),
        }
    }

    // Whether a call that counts can be accepted at all.
    pub(crate) fn admit(&self, caller: Caller) -> Result<(), MachineFault>
        ensures { result ≡ admitted self.now.setup self.now.accepted caller }
    {
        self.is_set_up()?;
        if self.accepted >= MOST_ACCEPTED {
            return Err(MachineFault::Full(caller));
        }
        Ok(())
    }

    // The place of a processor among the records.
    pub(crate) fn locate(&self, processor: ProcessorNumber) -> Result<usize, MachineFault>
        ensures { Locates self.now.count processor result }
    {
        let cpu = processor.0 as usize;
        if cpu >= PROCESSORS || processor.0 >= self.count {
            return Err(MachineFault::NoProcessor(processor));
        }
        Ok(cpu)
    }

    // The place of a processor among the records, for a reading of a place in a table with so many sets and ways.
    pub(crate) fn locate_place(
        &self,
        processor: ProcessorNumber,
        at: Place,
        sets: usize,
        ways: usize,
    ) -> Result<usize, MachineFault>
        ensures { LocatesPlace self.now.setup self.now.count processor sets ways at.set at.way result }
    {
        self.is_set_up()?;
        let cpu = self.locate(processor)?;
        if at.set >= sets || at.way >= ways {
            return Err(MachineFault::NoPlace(processor));
        }
        Ok(cpu)
    }
}
