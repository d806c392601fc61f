// How the other processors see a message: each in turn, in rising order, and never the sender.
ghost use Rattle.std.specs.Prelude.{◌≡◌, ◌<◌};
ghost use Rattle.bus.specs.Passes.{Fetches, Shares, Snoopable, Turns};
ghost use Rattle.caches.specs.Ranged.{Ranged};
ghost use Rattle.rules.specs.Bus.{take_pass};
ghost use Rattle.tables.specs.Messages.{sender_number};

use base::block::PhysicalBlock;
use caches::snoop::{snoop_read, snoop_take};
use memory::memory::Memory;
use records::record::ProcessorNumber;
use tables::message::{Sender, Supplier};
use tables::types::{PROCESSORS, Processor, Processors, Snoop};

// The two loops below skip the sender each for itself: one loop with a closure would write what the closure captures, and
// then a proof knows nothing of what it wrote.

// Every other processor, in rising order, sees an invalidation of a block. The first `count` records are the board's.
// The records and their count stay two parameters, and not one struct in the machine: its proofs name both fields apart.
pub fn invalidate(processors: &mut Processors, count: usize, sender: Sender, block: PhysicalBlock)
    ensures { Snoopable count processors.old → processors.new ≡ take_pass count (sender_number sender) block.0 processors.old }
{
    let writer = usize::from(sender.number());
    for (i, p) in processors[..count.min(PROCESSORS)].iter_mut().enumerate() {
        if i != writer {
            snoop_take(p, block);
        }
    }
}

// What a read on the bus came to: who supplies the block, and whether another processor has it. The memory supplies in
// both cases, so the flag is no part of the supplier.
#[derive(Clone, Copy, Debug, PartialEq, Eq)]
pub struct Shared {
    pub supplier: Supplier,
    pub acked: bool,
}

// A processor other than the sender sees a read of a block; `shared` is what the read came to before it.
fn share_at<S: Memory>(
    p: &mut Processor,
    memory: &mut S,
    number: ProcessorNumber,
    block: PhysicalBlock,
    shared: Shared,
) -> Shared
    ensures { Ranged p.old → S.Memory.sound memory.old → block.0 < S.Memory.count memory.old → Turns S.Memory number.0 block.0 p.old p.new memory.old memory.new shared result }
{
    match snoop_read(p, block) {
        Snoop::NotHeld => shared,
        Snoop::Held => Shared {
            acked: true,
            ..shared
        },
        Snoop::Supplied { words } => {
            // Not refused: the block is below the count.
            let _ = memory.write(block, words);
            Shared {
                supplier: Supplier::Holder(number),
                acked: true,
            }
        }
    }
}

// Every other processor, in rising order, sees a read of a block; a modified holder supplies it and memory is brought up to date.
pub fn share<S: Memory>(
    processors: &mut Processors,
    memory: &mut S,
    count: usize,
    sender: Sender,
    block: PhysicalBlock,
) -> Shared
    ensures { Snoopable count processors.old → S.Memory.sound memory.old → block.0 < S.Memory.count memory.old → Shares S.Memory count (sender_number sender) block.0 processors.old processors.new memory.old memory.new result }
{
    let reader = usize::from(sender.number());
    let mut shared = Shared {
        supplier: Supplier::Memory,
        acked: false,
    };
    for (i, p) in processors[..count.min(PROCESSORS)].iter_mut().enumerate() {
        if i != reader {
            shared = share_at(p, memory, ProcessorNumber(i as u8), block, shared);
        }
    }
    shared
}

// A fetch: a read seen by the others and, for a write, an invalidation after it. Sender, block and `exclusive` stay three
// parameters here and in the machine: a struct would be made for one call and taken apart in it.
pub fn fetch<S: Memory>(
    processors: &mut Processors,
    memory: &mut S,
    count: usize,
    sender: Sender,
    block: PhysicalBlock,
    exclusive: bool,
) -> Shared
    ensures { Snoopable count processors.old → S.Memory.sound memory.old → block.0 < S.Memory.count memory.old → Fetches S.Memory exclusive count (sender_number sender) block.0 processors.old processors.new memory.old memory.new result }
{
    let shared = share(processors, memory, count, sender, block);
    if exclusive {
        invalidate(processors, count, sender, block);
    }
    shared
}
