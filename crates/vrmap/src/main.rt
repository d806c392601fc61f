#![tactic(auto)]

use base::block::Frame;
use base::size::FRAMES;
use paging::mapped::MappedPage;
use records::trace::{TRACE_BYTES, TraceError};
use std::alloc::{AllocError, Global};
use std::io::{self, Read, Write};
use std::process::ExitCode;
use thiserror::Error;
use trace_map::pages::{mapped_pages, sharers};
use trace_map::trace::{Counts, map_of_trace};

// how many of the pages that share a frame stand on one line
const SHARERS_A_LINE: usize = 15;

// Why there is no report.
#[derive(Debug, Drop, Error)]
enum Failure {
    #[error("{0}")]
    Trace(#[from] TraceError),
    #[error("no memory for the report")]
    NoMemory(#[from(alloc)] AllocError),
    #[error("standard input or output: {0}")]
    Stream(#[from] io::Error),
}

// One line for each mapped page.
fn write_pages(text: &mut String, rows: &[MappedPage]) -> Result<(), Failure> {
    text.push_str("process  page  frame\n")?;
    for row in rows {
        writeln!(
            text,
            "{:>7}  {:>4}  {:>5}",
            row.process.0, row.page.0, row.frame.0
        )?;
    }
    Ok(())
}

// The pages that share one frame, some to a line.
fn write_sharers(text: &mut String, frame: Frame, rows: &[MappedPage]) -> Result<(), Failure> {
    write!(text, "{:>5}", frame.0)?;
    for (i, line) in rows.chunks(SHARERS_A_LINE).enumerate() {
        if i > 0 {
            text.push_str("\n     ")?;
        }
        for row in line {
            write!(text, "  {}:{:02}", row.process.0, row.page.0)?;
        }
    }
    text.push_str("\n")?;
    Ok(())
}

// Every frame that is mapped more than once.
fn write_shared(heap: Global, text: &mut String, rows: &[MappedPage]) -> Result<(), Failure> {
    text.push_str("\nframe  shared by process:page\n")?;
    for frame in (0..FRAMES).map(Frame) {
        let sharing = sharers(heap, rows, frame)?;
        if sharing.len() > 1 {
            write_sharers(text, frame, &sharing)?;
        }
    }
    Ok(())
}

// What is printed for a trace.
fn report(heap: Global, bytes: &[u8]) -> Result<String, Failure> {
    let mut traced = map_of_trace(heap, bytes)?;
    let rows = mapped_pages(heap, &mut traced.map)?;
    let mut text = String::new(heap);
    write_pages(&mut text, &rows)?;
    write_shared(heap, &mut text, &rows)?;
    let Counts {
        records,
        enters,
        erases,
    } = traced.counts;
    let pages = rows.len();
    writeln!(
        text,
        "\nrecords {records}, enters {enters}, erases {erases}, pages {pages}"
    )?;
    Ok(text)
}

// Reads the trace, and prints its map.
fn run(rt: &HostRuntime) -> Result<(), Failure> {
    let mut input = Vec::new(rt.alloc());
    let limit = TRACE_BYTES as u64 + 1;
    rt.stdin().take(limit).read_to_end(&mut input)?;
    let text = report(rt.alloc(), &input)?;
    rt.stdout().write_all(text.as_bytes())?;
    Ok(())
}

// A failure is told on standard error, and ends the program with status 1.
fn main(rt: HostRuntime) -> ExitCode {
    match run(&rt) {
        Ok(()) => ExitCode::SUCCESS,
        Err(failure) => {
            let _ = eprintln!(rt; "vrmap: {failure}");
            ExitCode::FAILURE
        }
    }
}

#[cfg(test)]
mod tests {
    use super::*;
    use std::test::Fail;

    #[test]
    fn empty_input_prints_an_empty_map(rt: HostRuntime) -> Result<(), Fail> {
        let text = report(rt.alloc(), &[])?;
        assert!(rt;
            text.as_str()
                == "process  page  frame\n\nframe  shared by process:page\n\nrecords 0, enters 0, erases 0, pages 0\n"
        );
        Ok(())
    }

    #[test]
    fn fault_is_told_with_record_and_number(rt: HostRuntime) -> Result<(), Fail> {
        let bytes = [0x40, 0x00, 0x00, 0x05, 0x80, 0x00, 0x00, 0x00];
        let Err(failure) = report(rt.alloc(), &bytes) else {
            return Err(Fail::new("taken"));
        };
        let text = failure.to_string(rt.alloc())?;
        assert!(rt; text.as_str() == "record 1, number 16: no kind of record has this number");
        Ok(())
    }
}
