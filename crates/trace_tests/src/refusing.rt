use crate::support::{bytes_of, reads};
use base::fault::Fault;
use records::decode::decode;
use std::test::Fail;

#[test]
fn over_65536_bytes_is_15(rt: HostRuntime) -> Result<(), Fail> {
    let heap = rt.alloc();
    let mut bytes = bytes_of(heap, &vec![in heap; 0x1F00_07FF; 16_384]?)?;
    reads(&rt, heap, &bytes, (0, 16_384))?;
    bytes.push(0x10)?;
    reads(&rt, heap, &bytes, (15, 0))?;
    let zeros = vec![in heap; 0; 65_537]?;
    reads(&rt, heap, &zeros, (15, 0))
}

// An unknown kind, also with other bits set, and a bit that the kind does not name, also where
// the record is cut short.
#[test]
fn unknown_kind_is_16_and_unnamed_bit_17(rt: HostRuntime) -> Result<(), Fail> {
    let heap = rt.alloc();
    for (word, number) in [
        (0x0000_0000, 16),
        (0x8000_0000, 16),
        (0x9000_0000, 16),
        (0xA000_0000, 16),
        (0xB000_0000, 16),
        (0xC000_0000, 16),
        (0xD000_0000, 16),
        (0xE000_0000, 16),
        (0xF000_0000, 16),
        (0x0FFF_FFFF, 16),
        (0x8000_0800, 16),
        (0xFFFF_FFFF, 16),
        (0x1000_0800, 17),
        (0x1080_0000, 17),
        (0x2000_0800, 17),
        (0x3000_0008, 17),
        (0x4800_0000, 17),
        (0x4080_0000, 17),
        (0x4000_4000, 17),
        (0x4000_0080, 17),
        (0x4000_0040, 17),
        (0x5800_0000, 17),
        (0x5000_4000, 17),
        (0x5000_0080, 17),
        (0x5000_0001, 17),
        (0x6001_0000, 17),
        (0x6800_0000, 17),
        (0x7001_0000, 17),
    ] {
        reads(&rt, heap, &bytes_of(heap, &[word])?, (number, 0))?;
        let words = [0x1000_0000, 0x2000_0000, 0x8000_0000, word, 0, 0, 0, 0];
        reads(&rt, heap, &bytes_of(heap, &words)?, (number, 2))?;
    }
    Ok(())
}

// Each of the bits 27 to 0 alone, at each kind with the bits that it names.
#[test]
fn every_bit_is_named_or_refused(rt: HostRuntime) {
    for (kind, named) in [
        (0x1000_0000, 0x0F00_07FF),
        (0x2000_0000, 0x0F00_07FF),
        (0x3000_0000, 0x0F00_0007),
        (0x4000_0000, 0x0700_3F3F),
        (0x5000_0000, 0x0700_3F00),
        (0x6000_0000, 0x0000_FFFF),
        (0x7000_0000, 0x0000_FFFF),
    ] {
        for bit in 0..28u32 {
            let set = 1 << bit;
            let found = decode(&[kind | set, 0, 0, 0, 0], 4).map_or_else(
                |fault| (fault.number(), fault.place()),
                |_| (0, 0),
            );
            let wanted = if named & set == 0 { (17, 4) } else { (0, 0) };
            assert_eq!(rt; found, wanted, "bit {bit} of {kind:08X}");
        }
    }
}

// A write, a device write and a read, cut after each byte; and loose bytes that would begin an
// unknown kind, alone and after a record.
#[test]
fn cut_short_is_18(rt: HostRuntime) -> Result<(), Fail> {
    let heap = rt.alloc();
    let bytes = bytes_of(
        heap,
        &[0x2000_0000, 1, 0x7000_0000, 2, 3, 4, 5, 0x1000_0000],
    )?;
    assert_eq!(rt; bytes.len(), 32);
    for len in 0..33 {
        let wanted = match len {
            0 => (0, 0),
            8 => (0, 1),
            28 => (0, 2),
            32 => (0, 3),
            1..=7 => (18, 0),
            9..=27 => (18, 1),
            _ => (18, 2),
        };
        reads(&rt, heap, &bytes[..len], wanted)?;
    }
    let loose = [0x10, 0, 0, 0, 0x80, 0xFF, 0xFF];
    for end in 5..8 {
        reads(&rt, heap, &loose[4..end], (18, 0))?;
        reads(&rt, heap, &loose[..end], (18, 1))?;
    }
    Ok(())
}

// One refusal of several, with none to three loose bytes after the words.
#[test]
fn first_refusal_counts(rt: HostRuntime) -> Result<(), Fail> {
    let heap = rt.alloc();
    for (words, number, record) in [
        (&[0x8000_0800][..], 16, 0),
        (&[0x2000_0800][..], 17, 0),
        (&[0x7001_0000, 1, 2, 3][..], 17, 0),
        (&[0x1000_0800, 0x8000_0000][..], 17, 0),
        (&[0x1000_0000, 0x2000_0000][..], 18, 1),
        (&[0x7000_0000, 1, 2, 3][..], 18, 0),
        (
            &[
                0x7000_0000,
                1,
                2,
                3,
                4,
                0x2000_0000,
                5,
                0x9000_0000,
                0x3000_0008,
            ][..],
            16,
            2,
        ),
    ] {
        let mut bytes = bytes_of(heap, words)?;
        for loose in 0..4 {
            reads(&rt, heap, &bytes, (number, record))?;
            bytes.push(0xFF)?;
        }
    }
    Ok(())
}
