ghost use Rattle.std.specs.Prelude.{◌≡◌};
ghost use Rattle.faults.specs.declared.machine_fault.MachineFault.TheVariants.{Map, Memory};
ghost use Rattle.faults.specs.MachineFaults.{caller_number, fault_layer, fault_number, fault_place, machine_numbered, setup_fault_number};

use base::fault::Fault;
use base::layer::Layer;
use memory::fault::MemoryFault;
use paging::fault::MapFault;
use records::record::ProcessorNumber;
use std::fmt;

// The number of the device as a place.
const DEVICE: u8 = 8;

// The number that stands for no place.
const NOBODY: u8 = 9;

// Who made a call. `Nobody` is no None of the other two: it is a place of its own, told as 9.
#[derive(Clone, Copy, Debug, PartialEq, Eq)]
pub enum Caller {
    // A processor, as it was given.
    Processor(ProcessorNumber),
    Device,
    // The operating system, the builder: no place.
    Nobody,
}

impl Caller {
    pub fn number(self) -> u8
        ensures { result ≡ caller_number self }
    {
        match self {
            Caller::Processor(processor) => processor.0,
            Caller::Device => DEVICE,
            Caller::Nobody => NOBODY,
        }
    }
}

// Why a machine cannot be set up. A listing shows the number of the case.
#[derive(Clone, Copy, Debug, PartialEq, Eq)]
pub enum SetupFault {
    // There are not one to four processors.
    Processors = 1,
    // The memory has no block, or a part of a page.
    MemorySize = 2,
}

impl SetupFault {
    pub fn number(self) -> u8
        ensures { result ≡ setup_fault_number self }
    {
        self as u8
    }
}

// Why a machine refuses a call. A fault that carries another repeats its number, with its own layer and place.
#[derive(Clone, Copy, Debug, PartialEq, Eq)]
pub enum MachineFault {
    // The machine was not set up.
    Setup(SetupFault),
    // As many calls were accepted as a machine accepts.
    Full(Caller),
    NoProcessor(ProcessorNumber),
    // The address is past the last.
    NoAddress(ProcessorNumber),
    // The map refused.
    Map { caller: Caller, fault: MapFault },
    // The frame is beyond the memory.
    BeyondMemory(ProcessorNumber),
    // A message is needed, and the device holds the bus.
    BusHeld(ProcessorNumber),
    // A switch to a process that is out of range.
    NoProcess(ProcessorNumber),
    // The bus is taken already.
    BusTaken,
    // The bus is not held, or not under this machine's number.
    NoTenure,
    // The memory refused.
    Memory { caller: Caller, fault: MemoryFault },
    // The slice does not have a block's words.
    SliceLength,
    // The set or the way is outside the table.
    NoPlace(ProcessorNumber),
}

impl MachineFault {
    // Who made the call.
    pub fn caller(self) -> Caller
        ensures { caller_number result ≡ fault_place self }
    {
        match self {
            MachineFault::Setup(_) => Caller::Nobody,
            MachineFault::Full(caller)
            | MachineFault::Map { caller, fault: _ }
            | MachineFault::Memory { caller, fault: _ } => caller,
            MachineFault::NoProcessor(processor)
            | MachineFault::NoAddress(processor)
            | MachineFault::BeyondMemory(processor)
            | MachineFault::BusHeld(processor)
            | MachineFault::NoProcess(processor)
            | MachineFault::NoPlace(processor) => Caller::Processor(processor),
            MachineFault::BusTaken | MachineFault::NoTenure | MachineFault::SliceLength => {
                Caller::Device
            }
        }
    }
}

impl Fault for MachineFault {
    ghost number_of = { fault_number };

    ghost layer_of = { fault_layer };

    ghost place_of = { fault_place };

    ghost numbered = { machine_numbered };

    fn number(self) -> u8 {
        match self {
            MachineFault::Setup(fault) => fault.number(),
            MachineFault::Full(_) => 3,
            MachineFault::NoProcessor(_) => 4,
            MachineFault::NoAddress(_) => 5,
            MachineFault::Map { caller: _, fault } => fault.number(),
            MachineFault::BeyondMemory(_) => 7,
            MachineFault::BusHeld(_) => 8,
            MachineFault::NoProcess(_) => 9,
            MachineFault::BusTaken => 10,
            MachineFault::NoTenure => 11,
            MachineFault::Memory { caller: _, fault } => fault.number(),
            MachineFault::SliceLength => 13,
            MachineFault::NoPlace(_) => 14,
        }
    }

    fn layer(self) -> Layer {
        Layer::Machine
    }

    // Where it came about: the processor as given, 8 for the device, 9 for none.
    fn place(self) -> u32 {
        u32::from(self.caller().number())
    }
}

// docs/DECISIONS.md fixes a conversion for each fault that the machine carries, raised by `?`, and clauses name what each
// gives: so the next two, which differ in a type and a case alone, stay by hand.
impl From<(MapFault, Caller)> for MachineFault {
    ghost from_gives = { λ e r. r ≡ Map e.1 e.0 };

    fn from(e: (MapFault, Caller)) -> MachineFault {
        MachineFault::Map {
            caller: e.1,
            fault: e.0,
        }
    }
}

impl From<(MemoryFault, Caller)> for MachineFault {
    ghost from_gives = { λ e r. r ≡ Memory e.1 e.0 };

    fn from(e: (MemoryFault, Caller)) -> MachineFault {
        MachineFault::Memory {
            caller: e.1,
            fault: e.0,
        }
    }
}

// What a fault that carries no other is, in words.
fn meaning(fault: MachineFault) -> &'static str {
    match fault {
        MachineFault::Setup(SetupFault::Processors) => "a board has one to four processors",
        MachineFault::Setup(SetupFault::MemorySize) => {
            "the memory's blocks are no positive multiple of a page's"
        }
        MachineFault::Full(_) => "a million calls were accepted already",
        MachineFault::NoProcessor(_) => "there is no such processor",
        MachineFault::NoAddress(_) => "the address is past the last",
        MachineFault::Map {
            caller: _,
            fault: _,
        } => "the map refuses",
        MachineFault::BeyondMemory(_) => "the frame is beyond the memory",
        MachineFault::BusHeld(_) => "a message is needed and the bus is held",
        MachineFault::NoProcess(_) => "the process is out of range",
        MachineFault::BusTaken => "the bus is held already",
        MachineFault::NoTenure => "the bus is not held under this machine's number",
        MachineFault::Memory {
            caller: _,
            fault: _,
        } => "the memory refuses",
        MachineFault::SliceLength => "the slice does not have four words",
        MachineFault::NoPlace(_) => "the set or the way is outside the table",
    }
}

// By hand, as `thiserror` takes one text for each case: these share their beginning.
impl fmt::Display for MachineFault {
    fn fmt<W: fmt::Write>(&self, f: &mut fmt::Formatter<W>) -> fmt::Result {
        let place = self.place();
        let number = self.number();
        let meaning = meaning(*self);
        write!(f, "place {place}, number {number}: {meaning}")
    }
}
