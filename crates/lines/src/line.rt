ghost use Rattle.std.specs.Prelude.{◌≡◌, ◌-◌, ◌<◌, ◌≤◌, length};
ghost use Rattle.lines.specs.Hex.{digit_of, hex_field};
ghost use Rattle.lines.specs.Levels.{level_number};
ghost use Rattle.lines.specs.Lines.{Written, line_bytes};

use records::fault::FormatFault;

// bytes to a line
pub const LINE_BYTES: usize = 41;

// Where a reference found its word.
#[derive(Clone, Copy, Debug, PartialEq, Eq)]
pub enum Level {
    VHit = 0,
    RHit = 1,
    Synonym = 2,
    Miss = 3,
    NoReference = 4,
}

// What one line of a listing shows of a record.
#[derive(Clone, Copy, Debug, PartialEq, Eq)]
pub struct Line {
    pub record: u32,
    pub status: u8,
    pub level: Level,
    pub word: u32,
    pub messages: [u32; 2],
}

impl Level {
    // The digit that a line shows for the level.
    pub fn number(self) -> u8
        ensures { result ≡ level_number self }
    {
        self as u8
    }
}

// The upper-case digit of a number below 16.
fn digit(n: u32) -> u8
    requires { n < 16 }
    ensures { result ≡ digit_of n }
{
    b"0123456789ABCDEF"[n as usize]
}

// Fills a field with the last digits of a number and the byte after them.
fn fill(field: &mut [u8], n: u32, end: u8)
    requires some { 0 < length field.old }
    requires digits { length field.old ≤ 9 }
    ensures { field.new ≡ hex_field (length field.old - 1) n end }
{
    let last = field.len() - 1;
    for (at, byte) in field.iter_mut().enumerate() {
        *byte = if at < last {
            digit(n >> (4 * (last - 1 - at)) & 0xF)
        } else {
            end
        };
    }
}

// The bytes of one line.
// Not by `write!`: the bytes are of a fixed number, and a formatter's writes can fail.
pub fn line_bytes(line: Line) -> [u8; LINE_BYTES]
    ensures { result ≡ line_bytes line }
{
    let mut out = [0; LINE_BYTES];
    let (record, rest) = out.split_at_mut(9);
    let (status, rest) = rest.split_at_mut(3);
    let (level, rest) = rest.split_at_mut(2);
    let (word, rest) = rest.split_at_mut(9);
    let (first, second) = rest.split_at_mut(9);
    fill(record, line.record, b' ');
    fill(status, u32::from(line.status), b' ');
    fill(level, u32::from(line.level.number()), b' ');
    fill(word, line.word, b' ');
    fill(first, line.messages[0], b' ');
    fill(second, line.messages[1], b'\n');
    out
}

// Writes one line to the front of `out`, or refuses where it does not fit.
pub fn write_line(line: Line, out: &mut [u8]) -> Result<(), FormatFault>
    ensures { Written line out.old out.new result }
{
    let front = out.first_chunk_mut().ok_or(FormatFault::ShortBuffer {
        record: line.record,
    })?;
    *front = line_bytes(line);
    Ok(())
}
