ghost use Rattle.std.specs.Prelude.{◌≡◌};
ghost use Rattle.faults.specs.declared.trace_fault.TraceFault.TheVariants.{Format, Machine};
ghost use Rattle.faults.specs.TraceFaults.{trace_layer, trace_number, trace_numbered, trace_place};

use crate::machine_fault::MachineFault;
use base::fault::Fault;
use base::layer::Layer;
use records::fault::FormatFault;
use std::fmt;

// Why a record of a trace, or a trace, is refused.
#[derive(Clone, Copy, Debug, PartialEq, Eq)]
pub enum TraceFault {
    // The machine refused a record: its fault, whole.
    Machine { record: u32, fault: MachineFault },
    Format(FormatFault),
}

impl Fault for TraceFault {
    ghost number_of = { trace_number };

    ghost layer_of = { trace_layer };

    ghost place_of = { trace_place };

    ghost numbered = { trace_numbered };

    fn number(self) -> u8 {
        match self {
            TraceFault::Machine { record: _, fault } => fault.number(),
            TraceFault::Format(fault) => fault.number(),
        }
    }

    fn layer(self) -> Layer {
        Layer::Trace
    }

    // The record at which it came about.
    fn place(self) -> u32 {
        match self {
            TraceFault::Machine { record, fault: _ } => record,
            TraceFault::Format(fault) => fault.place(),
        }
    }
}

impl From<(MachineFault, u32)> for TraceFault {
    ghost from_gives = { λ e r. r ≡ Machine e.1 e.0 };

    fn from(e: (MachineFault, u32)) -> TraceFault {
        TraceFault::Machine {
            record: e.1,
            fault: e.0,
        }
    }
}

impl From<FormatFault> for TraceFault {
    ghost from_gives = { λ e r. r ≡ Format e };

    fn from(e: FormatFault) -> TraceFault {
        TraceFault::Format(e)
    }
}

// By hand, beside the fault trait whose impl it stands with: a derive would write the same two texts.
impl fmt::Display for TraceFault {
    fn fmt<W: fmt::Write>(&self, f: &mut fmt::Formatter<W>) -> fmt::Result {
        match self {
            TraceFault::Machine { record, fault } => write!(f, "record {record}: {fault}"),
            TraceFault::Format(fault) => write!(f, "{fault}"),
        }
    }
}
