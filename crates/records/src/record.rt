ghost use Rattle.std.specs.Prelude.{◌≡◌};
ghost use Rattle.records.specs.Records.{kind_named};

use base::block::{Frame, Page, PhysicalBlock, Process, Words};

// A processor, as a trace numbers it.
#[derive(Clone, Copy, Debug, PartialEq, Eq)]
pub struct ProcessorNumber(pub u8);

// The kinds of records.
#[derive(Clone, Copy, Debug, PartialEq, Eq)]
pub enum Kind {
    Read,
    Write,
    Switch,
    Enter,
    Erase,
    DeviceRead,
    DeviceWrite,
}

// A number that names no kind.
#[derive(Clone, Copy, Debug, PartialEq, Eq)]
pub struct NoKind(pub u32);

// The kind that a number names: the highest four bits of a record's first word.
impl TryFrom<u32> for Kind {
    type Error = NoKind;

    ghost try_from_gives = { λ number r. r ≡ kind_named number };

    fn try_from(number: u32) -> Result<Kind, NoKind> {
        match number {
            1 => Ok(Kind::Read),
            2 => Ok(Kind::Write),
            3 => Ok(Kind::Switch),
            4 => Ok(Kind::Enter),
            5 => Ok(Kind::Erase),
            6 => Ok(Kind::DeviceRead),
            7 => Ok(Kind::DeviceWrite),
            _ => Err(NoKind(number)),
        }
    }
}

// One record of a trace.
#[derive(Clone, Copy, Debug, PartialEq, Eq)]
pub enum Record {
    Read {
        processor: ProcessorNumber,
        address: u16,
    },
    Write {
        processor: ProcessorNumber,
        address: u16,
        value: u32,
    },
    Switch {
        processor: ProcessorNumber,
        process: Process,
    },
    Enter {
        process: Process,
        page: Page,
        frame: Frame,
    },
    Erase {
        process: Process,
        page: Page,
    },
    DeviceRead {
        block: PhysicalBlock,
    },
    DeviceWrite {
        block: PhysicalBlock,
        words: Words,
    },
}
