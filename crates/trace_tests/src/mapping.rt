use crate::support::{bytes_of, told};
use base::block::{Frame, Page, Process};
use paging::mapped::MappedPage;
use std::alloc::Global;
use std::process::Abort;
use std::test::Fail;
use trace_map::pages::{mapped_pages, sharers};
use trace_map::trace::{Counts, map_of_trace};

// 18 records. Frame 9 is shared; page 5 of process 1 is entered twice, and page 10 of process 5
// again after its erase; page 16 of process 3 is erased, and so is page 1 of process 6, which has
// no frame. The words after a write and a device write look like enters and erases.
const WORDS: [u32; 23] = [
    0x4100_0509,
    0x4000_3F09,
    0x1000_0000,
    0x4700_0009,
    0x4100_0203,
    0x2000_0000,
    0x4100_0A0A,
    0x4100_0504,
    0x4300_1007,
    0x5300_1000,
    0x5600_0100,
    0x3000_0003,
    0x6000_0001,
    0x7000_0002,
    0x4000_0101,
    0x5100_0200,
    0x4000_0303,
    0x5700_0000,
    0x4100_0109,
    0x4200_0509,
    0x4500_0A00,
    0x5500_0A00,
    0x4500_0A3F,
];

fn row(process: u8, page: u16, frame: u8) -> MappedPage {
    MappedPage {
        process: Process(process),
        page: Page(page),
        frame: Frame(frame),
    }
}

// The rows of these words.
fn expected() -> [MappedPage; 7] {
    [
        row(0, 63, 9),
        row(1, 1, 9),
        row(1, 2, 3),
        row(1, 5, 4),
        row(2, 5, 9),
        row(5, 10, 63),
        row(7, 0, 9),
    ]
}

// Checks what a trace counts and maps. The second time the buffer holds some of the frames.
fn maps(
    rt: &impl Abort,
    heap: Global,
    words: &[u32],
    counts: Counts,
    wanted: &[MappedPage],
) -> Result<(), Fail> {
    let mut traced = map_of_trace(heap, &bytes_of(heap, words)?)?;
    assert_eq!(rt; traced.counts, counts);
    for _ in 0..2 {
        let rows = mapped_pages(heap, &mut traced.map)?;
        assert_eq!(rt; &rows[..], wanted);
    }
    Ok(())
}

#[test]
fn counts_and_rows_of_a_trace(rt: HostRuntime) -> Result<(), Fail> {
    let counts = Counts {
        records: 18,
        enters: 10,
        erases: 3,
    };
    maps(&rt, rt.alloc(), &WORDS, counts, &expected())?;
    let none = Counts {
        records: 0,
        enters: 0,
        erases: 0,
    };
    maps(&rt, rt.alloc(), &[], none, &[])
}

// Checks which of the rows are of a frame.
fn shares(rt: &impl Abort, heap: Global, frame: u8, wanted: &[MappedPage]) -> Result<(), Fail> {
    let found = sharers(heap, &expected(), Frame(frame))?;
    assert_eq!(rt; &found[..], wanted);
    Ok(())
}

#[test]
fn sharers_of_frames(rt: HostRuntime) -> Result<(), Fail> {
    let heap = rt.alloc();
    shares(
        &rt,
        heap,
        9,
        &[row(0, 63, 9), row(1, 1, 9), row(2, 5, 9), row(7, 0, 9)],
    )?;
    shares(&rt, heap, 4, &[row(1, 5, 4)])?;
    shares(&rt, heap, 7, &[])
}

// Checks that a trace has no map, but this refusal.
fn unmapped(rt: &impl Abort, heap: Global, bytes: &[u8], refusal: (u8, usize)) -> Result<(), Fail> {
    let Err(error) = map_of_trace(heap, bytes) else {
        return Err(Fail::new("the trace is accepted"));
    };
    assert_eq!(rt; told(rt, error)?, refusal);
    Ok(())
}

#[test]
fn fault_of_the_trace_is_answered(rt: HostRuntime) -> Result<(), Fail> {
    let heap = rt.alloc();
    for (words, refusal) in [
        ([0x4100_0509, 0x1000_0000, 0x8000_0000], (16, 2)),
        ([0x4100_0509, 0x4000_0040, 0x8000_0000], (17, 1)),
        ([0x5000_0000, 0x7000_0000, 0x1000_0000], (18, 1)),
    ] {
        unmapped(&rt, heap, &bytes_of(heap, &words)?, refusal)?;
    }
    let long = vec![in heap; 0; 65_537]?;
    unmapped(&rt, heap, &long, (15, 0))
}
