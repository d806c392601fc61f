ghost use Rattle.records.specs.Traces.{trace_of};
ghost use Rattle.trace_map.specs.Traced.{Counted, Maps};

use crate::play::{enters, erases, play_all};
use paging::buffer::TranslationBuffer;
use paging::table::FlatTable;
use records::record::Record;
use records::trace::{TraceError, read_trace};
use std::alloc::Global;

// What a trace counts.
#[derive(Clone, Copy, Debug, PartialEq, Eq)]
pub struct Counts {
    pub records: usize,
    pub enters: usize,
    pub erases: usize,
}

// The map that a trace makes: a flat table under a translation buffer.
#[derive(Drop)]
pub struct TraceMap {
    pub map: TranslationBuffer<FlatTable>,
    pub counts: Counts,
}

fn counts_of(records: &[Record]) -> Counts
    ensures { Counted records.now result }
{
    Counts {
        records: records.len(),
        enters: enters(records),
        erases: erases(records),
    }
}

// The map of a trace, or the trace's fault.
pub fn map_of_trace(heap: Global, bytes: &[u8]) -> Result<TraceMap, TraceError>
    ensures { Maps (trace_of bytes.now) result }
{
    let records = read_trace(heap, bytes)?;
    let counts = counts_of(&records);
    let mut map = TranslationBuffer::new(FlatTable::new());
    play_all(&mut map, &records);
    Ok(TraceMap { map, counts })
}
