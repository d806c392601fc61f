ghost use Rattle.std.specs.Prelude.{◌≡◌, map, IfOk};
ghost use Rattle.std.specs.Int.{from_be_bytes, w32};
ghost use Rattle.records.specs.Bytes.{words_of};

use std::alloc::{AllocError, Global};

// The word of each run of four bytes.
fn words_of_runs(heap: Global, runs: &[[u8; 4]]) -> Result<Vec<u32>, AllocError>
    ensures { IfOk result (λ v. v.items ≡ map (from_be_bytes w32) runs.now) }
{
    runs.iter()
        .map(|run| u32::from_be_bytes(*run))
        .collect(heap)
}

// The big-endian words of the bytes. One to three bytes after the last whole word are left out.
pub fn words_of(heap: Global, bytes: &[u8]) -> Result<Vec<u32>, AllocError>
    ensures { IfOk result (λ v. v.items ≡ words_of bytes.now) }
{
    let (runs, _) = bytes.as_chunks::<4>();
    words_of_runs(heap, runs)
}
