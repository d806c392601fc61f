ghost use Rattle.std.specs.Prelude.{◌≡◌};
ghost use Rattle.tables.specs.Messages.{kind_number, message_word, sender_number, supplier_number};

use base::block::PhysicalBlock;
use records::record::ProcessorNumber;

// What a message is. Its number stands in the highest bits of the message's word.
#[derive(Clone, Copy, Debug, PartialEq, Eq)]
pub enum MessageKind {
    ReadMiss = 1,
    Invalidation = 2,
    ReadModifyWrite = 3,
    WriteBack = 4,
    DeviceRead = 5,
    DeviceWrite = 6,
}

// Who sends a message.
#[derive(Clone, Copy, Debug, PartialEq, Eq)]
pub enum Sender {
    Cpu(ProcessorNumber),
    Device,
}

// Who supplies the data of a message.
#[derive(Clone, Copy, Debug, PartialEq, Eq)]
pub enum Supplier {
    // The processor that has the block modified, or that writes it back.
    Holder(ProcessorNumber),
    Memory,
    // The message has no data.
    NoData,
}

// A message on the bus.
#[derive(Clone, Copy, Debug, PartialEq, Eq)]
pub struct Message {
    pub kind: MessageKind,
    pub sender: Sender,
    pub supplier: Supplier,
    pub block: PhysicalBlock,
}

impl MessageKind {
    pub fn number(self) -> u32
        ensures { result ≡ kind_number self }
    {
        self as u32
    }
}

impl Sender {
    // The processor's number, or 8 for the device.
    pub fn number(self) -> u8
        ensures { result ≡ sender_number self }
    {
        match self {
            Sender::Cpu(processor) => processor.0,
            Sender::Device => 8,
        }
    }
}

impl Supplier {
    // The processor's number, 8 for the memory, or 15 for no data.
    pub fn number(self) -> u8
        ensures { result ≡ supplier_number self }
    {
        match self {
            Supplier::Holder(processor) => processor.0,
            Supplier::Memory => 8,
            Supplier::NoData => 15,
        }
    }
}

impl Message {
    // The word that a listing shows.
    pub fn word(self) -> u32
        ensures { result ≡ message_word self }
    {
        let sender = u32::from(self.sender.number() % 16);
        let supplier = u32::from(self.supplier.number() % 16);
        let block = u32::from(u16::from(self.block));
        self.kind.number() * 0x1000_0000 + sender * 0x100_0000 + supplier * 0x10_0000 + block
    }
}
