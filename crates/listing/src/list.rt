// From the bytes of a trace to the bytes of its listing.
ghost use Rattle.std.specs.Prelude.{◌≡◌, ℕ, ◌+◌, ◌*◌, ◌^◌, ◌<◌, ◌≤◌, ◌++◌, length, IfOk, vec_len, vec_capacity};
ghost use Rattle.lines.specs.Lines.{line_bytes, line_length};
ghost use Rattle.listing.specs.Listed.{Listed, items_listed};
ghost use Rattle.machine.specs.State.{HasPast, board, rules_of};
ghost use Rattle.records.specs.Told.{told_by};
ghost use Rattle.rules.specs.History.{History, Setup};

use crate::play::{line_for, refused_line, run_record};
use base::fault::Fault;
use lines::line::{LINE_BYTES, Line, line_bytes};
use machine::machine::Machine;
use memory::memory::Memory;
use memory::word_memory::WordMemory;
use paging::buffer::TranslationBuffer;
use paging::map::ChangeableMap;
use paging::table::FlatTable;
use records::fault::FormatFault;
use records::iter::Records;
use records::trace::TRACE_BYTES;
use records::words::words_of;
use replacement::least_recently_used::LeastRecentlyUsed;
use replacement::rule::Rule;
use std::alloc::{AllocError, Global};

// words of the program's memory
const MEMORY_WORDS: usize = 2048;

// One line more, for which there is room.
fn push_line(out: &mut Vec<u8>, line: Line)
    requires { vec_len out.old + line_length ≤ vec_capacity out.old }
    ensures items { out.new.items ≡ out.old.items ++ line_bytes line }
    ensures len { vec_len out.new ≡ vec_len out.old + line_length }
    ensures capacity { vec_capacity out.old ≤ vec_capacity out.new }
{
    out.extend_from_slice(&line_bytes(line)).unwrap();
}

// The lines of a trace's records, run on a machine, and that of the trace's fault.
fn list_records<M: ChangeableMap, S: Memory, V: Rule, R: Rule>(
    machine: &mut Machine<M, S, V, R>,
    records: Records<'_>,
    out: &mut Vec<u8>,
)
    requires { vec_len out.old + line_length * length (told_by records) ≤ vec_capacity out.old }
    ensures { (c : Setup) (h : History) → HasPast M.Map S.Memory V.Rule R.Rule c h machine.old → out.new.items ≡ out.old.items ++ items_listed (rules_of M.Map S.Memory V.Rule R.Rule machine.old) (board M.Map S.Memory V.Rule R.Rule machine.old) (told_by records.entry) }
{
    for next in records {
        let line = match next {
            Ok((number, record)) => line_for(number, run_record(machine, record, number)),
            Err(fault) => refused_line(fault.place(), fault),
        };
        push_line(out, line);
    }
}

// The listing of a trace over four processors, 512 zero blocks, an empty flat table under a translation buffer, and least
// recently used. Want of memory is told before the first record, or not at all.
pub fn list_trace(heap: Global, bytes: &[u8]) -> Result<Vec<u8>, AllocError>
    ensures { IfOk result (λ v. Listed bytes.now v.items) }
{
    if bytes.len() > TRACE_BYTES {
        let mut out = Vec::with_capacity(heap, LINE_BYTES)?;
        let fault = FormatFault::TooLong;
        push_line(&mut out, refused_line(fault.place(), fault));
        return Ok(out);
    }
    let words = words_of(heap, bytes)?;
    let mut out = Vec::with_capacity(heap, LINE_BYTES * (words.len() + 1))?;
    let mut blocks = [0; MEMORY_WORDS];
    let mut machine = Machine::new(
        TranslationBuffer::new(FlatTable::new()),
        WordMemory::new(&mut blocks),
        LeastRecentlyUsed,
        LeastRecentlyUsed,
        4,
        0,
    );
    match Records::new(&words, bytes.len() % 4 != 0) {
        Ok(records) => list_records(&mut machine, records, &mut out),
        Err(fault) => push_line(&mut out, refused_line(fault.place(), fault)),
    }
    Ok(out)
}
