use crate::support::bytes_of;
use base::block::{Frame, Page, PhysicalBlock, Process};
use records::decode::decode;
use records::fault::FormatFault;
use records::iter::Records;
use records::record::{ProcessorNumber, Record};
use records::trace::read_trace;
use records::words::words_of;
use std::test::Fail;

// Every kind, with the least and the greatest value of its fields and with values between.
const WORDS: [u32; 20] = [
    0x1F00_07FF,
    0x1000_0000,
    0x2A00_0400,
    0xDEAD_BEEF,
    0x3500_0006,
    0x3F00_0007,
    0x4700_3F3F,
    0x4200_1525,
    0x5700_3F00,
    0x5100_2A00,
    0x6000_8001,
    0x6000_FFFF,
    0x7000_FFFF,
    0x0102_0304,
    0x8000_0000,
    0x0000_0000,
    0xFFFF_FFFF,
    0x4000_0000,
    0x2F00_07FF,
    0x7000_0000,
];

const RECORDS: usize = 14;

// The records of these words.
fn expected() -> [Record; RECORDS] {
    [
        Record::Read {
            processor: ProcessorNumber(15),
            address: 2047,
        },
        Record::Read {
            processor: ProcessorNumber(0),
            address: 0,
        },
        Record::Write {
            processor: ProcessorNumber(10),
            address: 1024,
            value: 0xDEAD_BEEF,
        },
        Record::Switch {
            processor: ProcessorNumber(5),
            process: Process(6),
        },
        Record::Switch {
            processor: ProcessorNumber(15),
            process: Process(7),
        },
        Record::Enter {
            process: Process(7),
            page: Page(63),
            frame: Frame(63),
        },
        Record::Enter {
            process: Process(2),
            page: Page(21),
            frame: Frame(37),
        },
        Record::Erase {
            process: Process(7),
            page: Page(63),
        },
        Record::Erase {
            process: Process(1),
            page: Page(42),
        },
        Record::DeviceRead {
            block: PhysicalBlock::from(32769),
        },
        Record::DeviceRead {
            block: PhysicalBlock::from(65535),
        },
        Record::DeviceWrite {
            block: PhysicalBlock::from(65535),
            words: [0x0102_0304, 0x8000_0000, 0, 0xFFFF_FFFF],
        },
        Record::Enter {
            process: Process(0),
            page: Page(0),
            frame: Frame(0),
        },
        Record::Write {
            processor: ProcessorNumber(15),
            address: 2047,
            value: 0x7000_0000,
        },
    ]
}

#[test]
fn read_trace_gives_each_kind(rt: HostRuntime) -> Result<(), Fail> {
    let heap = rt.alloc();
    let records = read_trace(heap, &bytes_of(heap, &WORDS)?)?;
    assert_eq!(rt; &records[..], &expected()[..]);
    Ok(())
}

// The rest is carried on by hand, since the call alone is tried here.
#[test]
fn decode_gives_record_and_rest(rt: HostRuntime) -> Result<(), Fail> {
    let words = WORDS;
    let mut rest = &words[..];
    for record in expected() {
        let (next, after) = decode(rest, 9)?;
        assert_eq!(rt; next, record);
        rest = after;
    }
    assert_eq!(rt; rest.len(), 0);
    Ok(())
}

// Each with its number, and then loose bytes as a record that is cut short, once.
#[test]
fn records_come_one_after_another(rt: HostRuntime) -> Result<(), Fail> {
    let words = WORDS;
    let mut records = Records::new(&words, true)?;
    for (number, record) in (0..).zip(expected()) {
        assert_eq!(rt; records.next(), Some(Ok((number, record))));
    }
    let fault = FormatFault::CutShort { record: 14 };
    assert_eq!(rt; records.next(), Some(Err(fault)));
    assert_eq!(rt; records.next(), None);
    assert_eq!(rt; records.next(), None);
    Ok(())
}

#[test]
fn more_words_than_a_trace_has_are_refused(rt: HostRuntime) -> Result<(), Fail> {
    let words = vec![in rt.alloc(); 0x1000_0000; 16_385]?;
    assert!(rt; Records::new(&words[..16_384], true).is_ok());
    let Err(fault) = Records::new(&words, false) else {
        return Err(Fail::new("taken"));
    };
    assert_eq!(rt; fault, FormatFault::TooLong);
    Ok(())
}

#[test]
fn words_are_big_endian(rt: HostRuntime) -> Result<(), Fail> {
    let bytes = [
        0x12, 0x34, 0x56, 0x78, 0x9A, 0xBC, 0xDE, 0xF0, 0xFF, 0xFE, 0xFD,
    ];
    let words = [0x1234_5678, 0x9ABC_DEF0];
    for len in 0..12 {
        let found = words_of(rt.alloc(), &bytes[..len])?;
        assert_eq!(rt; &found[..], &words[..len / 4]);
    }
    Ok(())
}
