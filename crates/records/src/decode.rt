ghost use Rattle.std.specs.Prelude.{◌≡◌, ◌<◌, ◌≤◌, IfOk};
ghost use Rattle.records.specs.Records.{InRange, address_in, at_front, bits, checked_kind, decoded, device_block, device_read_of, device_write_of, enter_of, erase_of, kind_of, page_in, process_of, processor_of, read_of, seen, switch_of, unnamed_bits, write_of};

use crate::fault::FormatFault;
use crate::record::{Kind, ProcessorNumber, Record};
use base::block::{Frame, Page, PhysicalBlock, Process};

// The kind of the record that begins with a word, where there is one.
pub fn kind(word: u32) -> Option<Kind>
    ensures { result ≡ kind_of word }
{
    Kind::try_from(word >> 28).ok()
}

// The bits of a first word that its kind does not name, set.
pub fn unnamed_bits(kind: Kind) -> u32
    ensures { result ≡ unnamed_bits kind }
{
    match kind {
        Kind::Read | Kind::Write => 0x00FF_F800,
        Kind::Switch => 0x00FF_FFF8,
        Kind::Enter => 0x08FF_C0C0,
        Kind::Erase => 0x08FF_C0FF,
        Kind::DeviceRead | Kind::DeviceWrite => 0x0FFF_0000,
    }
}

// The number that the bits from high down to low of a word make.
fn field(word: u32, high: u32, low: u32) -> u32
    requires below { high < 31 }
    requires order { low ≤ high }
    ensures { result ≡ bits high low word }
{
    let mask = (1 << (high + 1 - low)) - 1;
    word >> low & mask
}

// What the next five share is `field`: each has a type and bits of its own, which as parameters would read no plainer.

// The processor that a read, a write or a switch names.
fn processor(first: u32) -> ProcessorNumber
    ensures { result ≡ processor_of first }
{
    ProcessorNumber(field(first, 27, 24) as u8)
}

// The address of a read or a write.
fn address(first: u32) -> u16
    ensures { result ≡ address_in first }
{
    field(first, 10, 0) as u16
}

// The process whose map an enter or an erase changes.
fn process(first: u32) -> Process
    ensures { result ≡ process_of first }
{
    Process(field(first, 26, 24) as u8)
}

// The page that an enter or an erase names.
fn page(first: u32) -> Page
    ensures { result ≡ page_in first }
{
    Page(field(first, 13, 8) as u16)
}

// The block that a device reads or writes.
fn block(first: u32) -> PhysicalBlock
    ensures { result ≡ device_block first }
{
    PhysicalBlock::from(field(first, 15, 0) as u16)
}

// The kind of the record that begins with `first`, where it names every bit that is set.
fn checked_kind(first: u32, record: u32) -> Result<Kind, FormatFault>
    ensures { result ≡ checked_kind «record» first (kind_of first) }
{
    let kind = kind(first).ok_or(FormatFault::UnknownKind { record })?;
    if first & unnamed_bits(kind) != 0 {
        return Err(FormatFault::UnnamedBit { record });
    }
    Ok(kind)
}

fn read(first: u32) -> Record
    ensures { result ≡ read_of first }
{
    Record::Read {
        processor: processor(first),
        address: address(first),
    }
}

fn switch(first: u32) -> Record
    ensures { result ≡ switch_of first }
{
    Record::Switch {
        processor: processor(first),
        process: Process(field(first, 2, 0) as u8),
    }
}

fn enter(first: u32) -> Record
    ensures { result ≡ enter_of first }
{
    Record::Enter {
        process: process(first),
        page: page(first),
        frame: Frame(field(first, 5, 0) as u8),
    }
}

fn erase(first: u32) -> Record
    ensures { result ≡ erase_of first }
{
    Record::Erase {
        process: process(first),
        page: page(first),
    }
}

fn device_read(first: u32) -> Record
    ensures { result ≡ device_read_of first }
{
    Record::DeviceRead {
        block: block(first),
    }
}

// A write at the front of the words: two words. docs/DECISIONS.md fixes a pattern over the words for each kind.
#[tactic(auto, using(crate::proofs::Fronts::write_front))]
fn write(words: &[u32], record: u32) -> Result<(Record, &[u32]), FormatFault>
    ensures { seen result ≡ at_front «record» (write_of «record») words.now }
{
    match words {
        [first, value, rest @ ..] => {
            let write = Record::Write {
                processor: processor(*first),
                address: address(*first),
                value: *value,
            };
            Ok((write, rest))
        }
        _ => Err(FormatFault::CutShort { record }),
    }
}

// A device write at the front of the words: five words.
#[tactic(auto, using(crate::proofs::Fronts::device_write_front))]
fn device_write(words: &[u32], record: u32) -> Result<(Record, &[u32]), FormatFault>
    ensures { seen result ≡ at_front «record» (device_write_of «record») words.now }
{
    match words {
        [first, a, b, c, d, rest @ ..] => {
            let write = Record::DeviceWrite {
                block: block(*first),
                words: [*a, *b, *c, *d],
            };
            Ok((write, rest))
        }
        _ => Err(FormatFault::CutShort { record }),
    }
}

// The record at the front of the words, the one with the number `record`, and the words after it.
pub fn decode(words: &[u32], record: u32) -> Result<(Record, &[u32]), FormatFault>
    ensures value { seen result ≡ decoded «record» words.now }
    ensures within { IfOk result (λ p. InRange p.0) }
{
    let [first, rest @ ..] = words else {
        return Err(FormatFault::CutShort { record });
    };
    match checked_kind(*first, record)? {
        Kind::Read => Ok((read(*first), rest)),
        Kind::Write => write(words, record),
        Kind::Switch => Ok((switch(*first), rest)),
        Kind::Enter => Ok((enter(*first), rest)),
        Kind::Erase => Ok((erase(*first), rest)),
        Kind::DeviceRead => Ok((device_read(*first), rest)),
        Kind::DeviceWrite => device_write(words, record),
    }
}
