ghost use Rattle.std.specs.Prelude.{Some};
ghost use Rattle.std.proofs.Common.{rules};
ghost use Rattle.memory.specs.Fault.{fault_layer, fault_number, fault_place, fault_text};

use base::block::PhysicalBlock;
use base::fault::Fault;
use base::layer::Layer;
use std::fmt;

// Why a memory refuses a call.
#[derive(Clone, Copy, Debug, PartialEq, Eq)]
pub enum MemoryFault {
    // The block is not one of the memory's.
    Outside { block: PhysicalBlock },
}

impl Fault for MemoryFault {
    ghost number_of = { fault_number };

    ghost layer_of = { fault_layer };

    ghost place_of = { fault_place };

    ghost numbered = { Prim.search rules };

    fn number(self) -> u8 {
        match self {
            MemoryFault::Outside { block: _ } => 12,
        }
    }

    fn layer(self) -> Layer {
        Layer::Memory
    }

    // Where it came about: the block.
    fn place(self) -> u32 {
        match self {
            MemoryFault::Outside { block } => u32::from(u16::from(block)),
        }
    }
}

impl fmt::Display for MemoryFault {
    ghost output = { λ x. Some (fault_text x) };

    fn fmt<W: fmt::Write>(&self, f: &mut fmt::Formatter<W>) -> fmt::Result {
        write!(f, "block {} is outside the memory", self.place())
    }
}
