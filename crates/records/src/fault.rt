ghost use Rattle.std.specs.Prelude.{◌≡◌, Some};
ghost use Rattle.records.specs.Faults.{layer_of, meaning_of, number_of, place_of, shown_as};

use base::fault::Fault;
use base::layer::Layer;
use std::fmt;

// Why a trace or a listing is refused.
#[derive(Clone, Copy, Debug, PartialEq, Eq)]
pub enum FormatFault {
    TooLong,
    UnknownKind { record: u32 },
    UnnamedBit { record: u32 },
    CutShort { record: u32 },
    ShortBuffer { record: u32 },
}

// The place of a fault is the record at which it came about.
impl Fault for FormatFault {
    ghost use Rattle.std.proofs.Common.{lit<, lit≤};
    ghost use Rattle.records.specs.declared.fault.FormatFault.TheVariants.{CutShort, ShortBuffer, TooLong, UnknownKind, UnnamedBit};

    ghost number_of = { number_of };

    ghost layer_of = { layer_of };

    ghost place_of = { place_of };

    fn number(self) -> u8 {
        match self {
            FormatFault::TooLong => 15,
            FormatFault::UnknownKind { record: _ } => 16,
            FormatFault::UnnamedBit { record: _ } => 17,
            FormatFault::CutShort { record: _ } => 18,
            FormatFault::ShortBuffer { record: _ } => 19,
        }
    }

    fn layer(self) -> Layer {
        Layer::Trace
    }

    fn place(self) -> u32 {
        match self {
            FormatFault::TooLong => 0,
            FormatFault::UnknownKind { record }
            | FormatFault::UnnamedBit { record }
            | FormatFault::CutShort { record }
            | FormatFault::ShortBuffer { record } => record,
        }
    }

    ghost numbered = { elim [ TooLong ↦ (lit< tt, lit≤ tt) | UnknownKind _ ↦ (lit< tt, lit≤ tt) | UnnamedBit _ ↦ (lit< tt, lit≤ tt) | CutShort _ ↦ (lit< tt, lit≤ tt) | ShortBuffer _ ↦ (lit< tt, lit≤ tt) ] };
}

impl FormatFault {
    // What the fault is, in words.
    pub fn meaning(self) -> &'static str
        ensures { result.now ≡ meaning_of self }
    {
        match self {
            FormatFault::TooLong => "the trace has over 65,536 bytes",
            FormatFault::UnknownKind { record: _ } => "no kind of record has this number",
            FormatFault::UnnamedBit { record: _ } => {
                "a bit that this kind of record does not name is set"
            }
            FormatFault::CutShort { record: _ } => "the trace ends inside this record",
            FormatFault::ShortBuffer { record: _ } => "the buffer is too short for a line",
        }
    }
}

impl fmt::Display for FormatFault {
    ghost output = { λ f. Some (shown_as f) };

    fn fmt<W: fmt::Write>(&self, f: &mut fmt::Formatter<W>) -> fmt::Result {
        let place = self.place();
        let number = self.number();
        let meaning = self.meaning();
        write!(f, "record {place}, number {number}: {meaning}")
    }
}
