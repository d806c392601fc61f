ghost use Rattle.std.specs.Prelude.{Some};
ghost use Rattle.std.proofs.Common.{rules};
ghost use Rattle.paging.specs.Fault.{fault_layer, fault_number, fault_place, fault_text};

use base::block::Page;
use base::fault::Fault;
use base::layer::Layer;
use std::fmt;

// Why a map refuses. Each case tells the page that was asked for.
#[derive(Clone, Copy, Debug, PartialEq, Eq)]
pub enum MapFault {
    // The page has no frame.
    NoFrame { page: Page },
    // The process, the page or the frame is out of its range.
    OutOfRange { page: Page },
}

impl Fault for MapFault {
    ghost number_of = { fault_number };

    ghost layer_of = { fault_layer };

    ghost place_of = { fault_place };

    ghost numbered = { Prim.search rules };

    fn number(self) -> u8 {
        match self {
            MapFault::NoFrame { page: _ } => 6,
            MapFault::OutOfRange { page: _ } => 9,
        }
    }

    fn layer(self) -> Layer {
        Layer::Map
    }

    // The page that was asked for.
    fn place(self) -> u32 {
        match self {
            MapFault::NoFrame { page } | MapFault::OutOfRange { page } => u32::from(page.0),
        }
    }
}

impl fmt::Display for MapFault {
    ghost output = { λ x. Some (fault_text x) };

    fn fmt<W: fmt::Write>(&self, f: &mut fmt::Formatter<W>) -> fmt::Result {
        match self {
            MapFault::NoFrame { page: _ } => write!(
                f,
                "page {}, number {}: the page has no frame",
                self.place(),
                self.number()
            ),
            MapFault::OutOfRange { page: _ } => write!(
                f,
                "page {}, number {}: process, page or frame is out of range",
                self.place(),
                self.number()
            ),
        }
    }
}
