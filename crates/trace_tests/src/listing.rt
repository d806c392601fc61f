use base::fault::Fault;
use base::layer::Layer;
use lines::line::{Level, Line, line_bytes, write_line};
use std::test::Fail;

const PLAIN: Line = Line {
    record: 5,
    status: 0,
    level: Level::VHit,
    word: 0,
    messages: [0x21F0_0029, 0],
};

const PLAIN_TEXT: [u8; 41] = *b"00000005 00 0 00000000 21F00029 00000000\n";

const LETTERS: Line = Line {
    record: 0xABCD_EF01,
    status: 0x1F,
    level: Level::NoReference,
    word: 0xDEAD_BEEF,
    messages: [0xFFFF_FFFF, 0xA0B0_C0D0],
};

const LETTERS_TEXT: [u8; 41] = *b"ABCDEF01 1F 4 DEADBEEF FFFFFFFF A0B0C0D0\n";

#[test]
fn short_buffer_is_19(rt: HostRuntime) -> Result<(), Fail> {
    for len in 0..41 {
        let mut out = [0x55; 42];
        let Err(fault) = write_line(LETTERS, &mut out[..len]) else {
            return Err(Fail::new("the line is written"));
        };
        assert_eq!(rt; (fault.number(), fault.place()), (19, 0xABCD_EF01));
        assert_eq!(rt; fault.layer(), Layer::Trace);
        assert_eq!(rt; out, [0x55; 42]);
    }
    Ok(())
}

#[test]
fn line_is_41_bytes(rt: HostRuntime) -> Result<(), Fail> {
    for (line, text) in [(PLAIN, PLAIN_TEXT), (LETTERS, LETTERS_TEXT)] {
        assert_eq!(rt; line_bytes(line), text);
        for len in 41..43 {
            let mut out = [0x55; 42];
            write_line(line, &mut out[..len])?;
            assert_eq!(rt; &out[..41], &text[..]);
            assert_eq!(rt; out[41], 0x55);
        }
    }
    Ok(())
}

#[test]
fn level_is_one_digit(rt: HostRuntime) {
    for (level, number, digit) in [
        (Level::VHit, 0, b'0'),
        (Level::RHit, 1, b'1'),
        (Level::Synonym, 2, b'2'),
        (Level::Miss, 3, b'3'),
        (Level::NoReference, 4, b'4'),
    ] {
        assert_eq!(rt; level.number(), number);
        let mut text = PLAIN_TEXT;
        text[12] = digit;
        assert_eq!(rt; line_bytes(Line { level, ..PLAIN }), text);
    }
}
