use base::fault::Fault;
use base::layer::Layer;
use records::trace::{TraceError, read_trace};
use std::alloc::{AllocError, Global};
use std::process::Abort;
use std::test::Fail;

// The bytes of words, big-endian.
pub fn bytes_of(heap: Global, words: &[u32]) -> Result<Vec<u8>, AllocError> {
    words
        .iter()
        .flat_map(|word| word.to_be_bytes())
        .collect(heap)
}

// The number and the record that a refusal tells.
pub fn told(rt: &impl Abort, error: TraceError) -> Result<(u8, usize), Fail> {
    let TraceError::Format(fault) = error else {
        return Err(Fail::new("no memory"));
    };
    assert_eq!(rt; fault.layer(), Layer::Trace);
    Ok((fault.number(), fault.place() as usize))
}

// Checks how a trace reads: 0 and the count of its records, or the number and the record of its refusal. Pairs of numbers,
// and no Result, so that the cases of a table stay short.
pub fn reads(rt: &impl Abort, heap: Global, bytes: &[u8], wanted: (u8, usize)) -> Result<(), Fail> {
    let found = read_trace(heap, bytes)
        .map(|records| (0, records.len()))
        .or_else(|error| told(rt, error))?;
    assert_eq!(rt; found, wanted, "a trace of {} bytes", bytes.len());
    Ok(())
}
