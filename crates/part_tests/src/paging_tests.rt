use base::block::{Frame, Page, PhysicalBlock, Process, VirtualBlock};
use base::fault::Fault;
use base::layer::Layer;
use paging::buffer::TranslationBuffer;
use paging::fault::MapFault;
use paging::map::{ChangeableMap, Map};
use paging::straight::StraightMap;
use paging::table::FlatTable;
use std::process::Abort;
use std::test::Fail;

// The numbers, and not the faults, since they are what is tested.
const NO_FRAME: u8 = 6;

const OUT_OF_RANGE: u8 = 9;

fn check_fault<T: Drop>(
    rt: &impl Abort,
    answer: Result<T, MapFault>,
    number: u8,
    page: u16,
) -> Result<(), Fail> {
    let Err(fault) = answer else {
        return Err(Fail::new("not refused"));
    };
    assert_eq!(rt; fault.number(), number, "page {page}");
    assert_eq!(rt; fault.layer(), Layer::Map);
    assert_eq!(rt; fault.place(), u32::from(page));
    Ok(())
}

// The page has this frame, or none.
fn check_frame<M: Map>(
    rt: &impl Abort,
    map: &mut M,
    process: u8,
    page: u16,
    frame: Option<u8>,
) -> Result<(), Fail> {
    let answer = map.frame_of(Process(process), Page(page));
    match frame {
        Some(frame) => {
            assert_eq!(rt;
                answer,
                Ok(Frame(frame)),
                "page {page} of process {process}"
            );
            Ok(())
        },
        None => check_fault(rt, answer, NO_FRAME, page),
    }
}

fn check_look_up<M: Map>(rt: &impl Abort, map: &mut M, process: u8, block: u16, physical: u16) {
    let answer = map.look_up(Process(process), VirtualBlock::from(block));
    assert_eq!(rt; answer, Ok(PhysicalBlock::from(physical)));
}

fn check_change<M: ChangeableMap>(
    rt: &impl Abort,
    map: &mut M,
    process: u8,
    page: u16,
    to: Option<u8>,
) {
    let answer = match to {
        Some(frame) => map.enter(Process(process), Page(page), Frame(frame)),
        None => map.erase(Process(process), Page(page)),
    };
    assert_eq!(rt; answer, Ok(()));
}

type Change = (u8, u16, Option<u8>, [Option<u8>; 3]);

// The process, page and new frame of each change, and the frames of three pages after it.
const CHANGES: [Change; 8] = [
    (2, 5, Some(40), [Some(40), None, None]),
    (2, 21, Some(41), [Some(40), Some(41), None]),
    (3, 5, Some(0), [Some(40), Some(41), Some(0)]),
    (2, 5, Some(43), [Some(43), Some(41), Some(0)]),
    (2, 21, None, [Some(43), None, Some(0)]),
    (2, 5, None, [None, None, Some(0)]),
    (2, 5, Some(62), [Some(62), None, Some(0)]),
    (3, 5, None, [Some(62), None, None]),
];

// Three pages that have one place in a buffer. Each is looked up twice, and the first again at the
// end, so that a buffer holds it when the next change is made.
fn check_frames<M: Map>(rt: &impl Abort, map: &mut M, frames: [Option<u8>; 3]) -> Result<(), Fail> {
    let [a, b, c] = frames;
    for (process, page, frame) in [(2, 5, a), (2, 21, b), (3, 5, c), (2, 5, a)] {
        check_frame(rt, map, process, page, frame)?;
        check_frame(rt, map, process, page, frame)?;
    }
    Ok(())
}

// The changes of a map that has no entries yet.
fn check_changes<M: ChangeableMap>(rt: &impl Abort, map: &mut M) -> Result<(), Fail> {
    check_frames(rt, map, [None, None, None])?;
    for (process, page, to, frames) in CHANGES {
        check_change(rt, map, process, page, to);
        check_frames(rt, map, frames)?;
    }
    check_look_up(rt, map, 2, 47, 503);
    Ok(())
}

fn check_refused<M: ChangeableMap>(
    rt: &impl Abort,
    map: &mut M,
    process: u8,
    page: u16,
) -> Result<(), Fail> {
    let (of, at) = (Process(process), Page(page));
    check_fault(rt, map.enter(of, at, Frame(1)), OUT_OF_RANGE, page)?;
    check_fault(rt, map.erase(of, at), OUT_OF_RANGE, page)?;
    check_fault(rt, map.frame_of(of, at), OUT_OF_RANGE, page)
}

// Two pages have frames, and no other page of any process has one.
fn check_two<M: Map>(rt: &impl Abort, map: &mut M) -> Result<(), Fail> {
    for process in 0..8 {
        for page in 0..64 {
            let frame = match (process, page) {
                (1, 0) => Some(17),
                (7, 63) => Some(63),
                _ => None,
            };
            check_frame(rt, map, process, page, frame)?;
        }
    }
    Ok(())
}

// What is out of range is refused, and then no entry of a map with two has changed.
fn check_refusals<M: ChangeableMap>(rt: &impl Abort, map: &mut M) -> Result<(), Fail> {
    check_change(rt, map, 1, 0, Some(17));
    check_change(rt, map, 7, 63, Some(63));
    check_refused(rt, map, 8, 0)?;
    check_refused(rt, map, 0, 64)?;
    check_refused(rt, map, 255, 65_535)?;
    let answer = map.enter(Process(7), Page(63), Frame(64));
    check_fault(rt, answer, OUT_OF_RANGE, 63)?;
    check_two(rt, map)
}

#[test]
fn straight_map(rt: HostRuntime) -> Result<(), Fail> {
    let mut map = StraightMap;
    for (process, page, frame) in [(0, 0, 0), (1, 0, 8), (7, 63, 55), (2, 60, 12)] {
        check_frame(&rt, &mut map, process, page, Some(frame))?;
    }
    for (process, page) in [(8, 0), (0, 64), (8, 64)] {
        check_fault(
            &rt,
            map.frame_of(Process(process), Page(page)),
            OUT_OF_RANGE,
            page,
        )?;
    }
    check_look_up(&rt, &mut map, 1, 9, 73);
    check_fault(
        &rt,
        map.look_up(Process(0), VirtualBlock::from(512)),
        OUT_OF_RANGE,
        64,
    )
}

#[test]
fn flat_table(rt: HostRuntime) -> Result<(), Fail> {
    check_changes(&rt, &mut FlatTable::new())?;
    check_refusals(&rt, &mut FlatTable::new())
}

#[test]
fn buffer(rt: HostRuntime) -> Result<(), Fail> {
    check_changes(&rt, &mut TranslationBuffer::new(FlatTable::new()))?;
    check_refusals(&rt, &mut TranslationBuffer::new(FlatTable::new()))
}

#[test]
fn buffer_over_buffer(rt: HostRuntime) -> Result<(), Fail> {
    let mut map = TranslationBuffer::new(TranslationBuffer::new(FlatTable::new()));
    check_changes(&rt, &mut map)?;
    let mut below = map.into_below();
    check_frames(&rt, &mut below, [Some(62), None, None])
}
