#![tactic(auto)]

use listing::list::list_trace;
use records::trace::TRACE_BYTES;
use std::alloc::{AllocError, Global};
use std::io::{self, ErrorKind, Read, Write};
use std::process::ExitCode;
use thiserror::Error;

// Why there is no listing.
#[derive(Debug, Drop, Error)]
enum Failure {
    #[error("no memory for the listing")]
    NoMemory(#[from(alloc)] AllocError),
    #[error("standard input or output: {0}")]
    Stream(io::Error),
}

// Reading the trace may want memory too.
impl From<io::Error> for Failure {
    fn from(error: io::Error) -> Failure {
        match error.kind() {
            ErrorKind::OutOfMemory => Failure::NoMemory(AllocError),
            _ => Failure::Stream(error),
        }
    }
}

// Reads a trace, and writes its listing. One byte more than a trace may have is read, so that a longer trace is told.
fn list<I: Read + Drop, O: Write>(heap: Global, input: I, output: &mut O) -> Result<(), Failure> {
    let mut bytes = Vec::new(heap);
    let limit = TRACE_BYTES as u64 + 1;
    input.take(limit).read_to_end(&mut bytes)?;
    let lines = list_trace(heap, &bytes)?;
    output.write_all(&lines)?;
    Ok(())
}

// A failure is told on standard error, and ends the program with status 1. A refusal in the listing is no failure.
fn main(rt: HostRuntime) -> ExitCode {
    match list(rt.alloc(), rt.stdin(), &mut rt.stdout()) {
        Ok(()) => ExitCode::SUCCESS,
        Err(failure) => {
            let _ = eprintln!(rt; "vrlist: {failure}");
            ExitCode::FAILURE
        }
    }
}

#[cfg(test)]
mod tests {
    use super::*;
    use std::test::Fail;

    #[test]
    fn empty_input_gives_an_empty_listing(rt: HostRuntime) -> Result<(), Fail> {
        let mut listing = Vec::new(rt.alloc());
        list(rt.alloc(), io::empty(), &mut listing)?;
        assert!(rt; listing.is_empty());
        Ok(())
    }

    // Page 0 of process 0 is entered at frame 5 and read at address 6. The third record's kind is 8, and the fourth would be
    // an enter again.
    #[test]
    fn unknown_kind_ends_the_listing_below_earlier_lines(rt: HostRuntime) -> Result<(), Fail> {
        let trace = [
            0x40, 0x00, 0x00, 0x05, 0x10, 0x00, 0x00, 0x06, 0x80, 0x00, 0x00, 0x00, 0x40, 0x00,
            0x00, 0x05,
        ];
        let wanted = "\
            00000000 00 4 00000000 00000000 00000000\n\
            00000001 00 3 00000000 10800029 00000000\n\
            00000002 10 4 00000000 00000000 00000000\n";
        let mut listing = Vec::new(rt.alloc());
        list(rt.alloc(), trace.as_slice(), &mut listing)?;
        assert!(rt; listing.as_slice() == wanted.as_bytes());
        Ok(())
    }

    // One byte more than a trace may have is read and no further. Its first word would be an unknown kind.
    #[test]
    fn input_without_end_is_told_as_too_long(rt: HostRuntime) -> Result<(), Fail> {
        let wanted = "00000000 0F 4 00000000 00000000 00000000\n";
        let mut listing = Vec::new(rt.alloc());
        list(rt.alloc(), io::repeat(0x80), &mut listing)?;
        assert!(rt; listing.as_slice() == wanted.as_bytes());
        Ok(())
    }
}
