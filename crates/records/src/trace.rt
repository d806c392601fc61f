ghost use Rattle.std.specs.Prelude.{◌≡◌, ◌≤◌, length, Some, Err};
ghost use Rattle.records.specs.declared.trace.TraceError.TheVariants.{Format, NoMemory};
ghost use Rattle.records.specs.Read.{Reads, shown_error};
ghost use Rattle.records.specs.Traces.{trace_bytes, trace_of};

use crate::fault::FormatFault;
use crate::iter::Records;
use crate::record::Record;
use crate::words::words_of;
use std::alloc::{AllocError, AllocFailed, Global};
use std::fmt;

// the most bytes that a trace has
pub const TRACE_BYTES: usize = 65_536;

// Why the records of a trace are not given.
#[derive(Clone, Copy, Debug, PartialEq, Eq)]
pub enum TraceError {
    Format(FormatFault),
    NoMemory,
}

// Conversions by hand, since clauses name the error that a `?` makes, and a derived one promises nothing of it.
impl From<FormatFault> for TraceError {
    ghost from_gives = { λ e r. r ≡ Format e };

    fn from(e: FormatFault) -> TraceError {
        TraceError::Format(e)
    }
}

impl From<AllocError> for TraceError {
    ghost from_gives = { λ _ r. r ≡ NoMemory };

    fn from(_e: AllocError) -> TraceError {
        TraceError::NoMemory
    }
}

impl<T: Drop> From<AllocFailed<T>> for TraceError {
    ghost from_gives = { λ _ r. r ≡ NoMemory };

    fn from(_e: AllocFailed<T>) -> TraceError {
        TraceError::NoMemory
    }
}

impl fmt::Display for TraceError {
    ghost output = { λ e. Some (shown_error e) };

    fn fmt<W: fmt::Write>(&self, f: &mut fmt::Formatter<W>) -> fmt::Result {
        match self {
            TraceError::Format(fault) => write!(f, "{fault}"),
            TraceError::NoMemory => write!(f, "no memory for the records of the trace"),
        }
    }
}

// All records of a trace, or its first fault. A trace that is too long is refused before memory is asked for.
pub fn read_trace(heap: Global, bytes: &[u8]) -> Result<Vec<Record>, TraceError>
    ensures value { Reads (trace_of bytes.now) result }
    ensures memory { result ≡ Err NoMemory → length bytes.now ≤ trace_bytes }
{
    if bytes.len() > TRACE_BYTES {
        return Err(FormatFault::TooLong.into());
    }
    let words = words_of(heap, bytes)?;
    let mut records = Vec::new(heap);
    // No `collect`: into a Result it would not say at which record it fails.
    for next in Records::new(&words, bytes.len() % 4 != 0)? {
        let (_, record) = next?;
        records.push(record)?;
    }
    Ok(records)
}
