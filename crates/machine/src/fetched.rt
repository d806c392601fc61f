// What an R-miss makes of the entry that goes and of the one that comes.
ghost use Rattle.std.specs.Prelude.{◌≡◌, ℕ, ◌<◌, Bool, true, false, [], ◌∷◌, ◌++◌};
ghost use Rattle.machine.specs.Answers.{sent_list};
ghost use Rattle.machine.specs.References.{Backs};
ghost use Rattle.rules.specs.Bus.{from_cpu, message};
ghost use Rattle.rules.specs.Calls.{fetch_kind, fetch_state, write_back_sent};
ghost use Rattle.tables.specs.declared.types.Child.TheVariants.{NoChild};

use crate::answer::Sent;
use base::block::{PhysicalBlock, Words};
use memory::memory::Memory;
use records::record::ProcessorNumber;
use tables::message::{Message, MessageKind, Sender, Supplier};
use tables::types::{Child, EntryState, REntry};

// An entry that went is written back where it is newer than memory.
pub(crate) fn write_back<S: Memory>(memory: &mut S, entry: &REntry)
    ensures { S.Memory.sound memory.old → (entry.now.rdirty ≡ true → entry.now.block.0 < S.Memory.count memory.old) → Backs S.Memory entry.now memory.old memory.new }
{
    if entry.rdirty {
        // Not refused: a block that was fetched is below the count.
        let _ = memory.write(entry.block, entry.words);
    }
}

// The state of a fetched entry.
fn fetched_state(exclusive: bool, acked: bool) -> EntryState
    ensures { result ≡ fetch_state exclusive acked }
{
    if !exclusive && acked {
        EntryState::Shared
    } else {
        EntryState::Private
    }
}

// The entry of a fetched block.
pub(crate) fn fetched_entry(
    block: PhysicalBlock,
    words: Words,
    exclusive: bool,
    acked: bool,
) -> REntry
    ensures { result ≡ record { state = fetch_state exclusive acked; block = block; words = words; rdirty = false; child = NoChild } }
{
    REntry {
        state: fetched_state(exclusive, acked),
        block,
        words,
        rdirty: false,
        child: Child::NoChild,
    }
}

// The message of a fetch.
fn fetch_message(
    sender: ProcessorNumber,
    supplier: Supplier,
    block: PhysicalBlock,
    exclusive: bool,
) -> Message
    ensures { result ≡ message (fetch_kind exclusive) (from_cpu sender.0) supplier block.0 }
{
    let kind = if exclusive {
        MessageKind::ReadModifyWrite
    } else {
        MessageKind::ReadMiss
    };
    Message {
        kind,
        sender: Sender::Cpu(sender),
        supplier,
        block,
    }
}

// The messages of an R-miss: the write-back of the entry that went, if it was one, and the fetch.
pub(crate) fn miss_messages(
    sender: ProcessorNumber,
    replaced: &REntry,
    supplier: Supplier,
    block: PhysicalBlock,
    exclusive: bool,
) -> Sent
    ensures { sent_list result ≡ write_back_sent replaced.now.rdirty sender.0 replaced.now ++ (message (fetch_kind exclusive) (from_cpu sender.0) supplier block.0 ∷ []) }
{
    let fetch = fetch_message(sender, supplier, block, exclusive);
    if replaced.rdirty {
        let back = Message {
            kind: MessageKind::WriteBack,
            sender: Sender::Cpu(sender),
            supplier: Supplier::Holder(sender),
            block: replaced.block,
        };
        Sent::Two(back, fetch)
    } else {
        Sent::One(fetch)
    }
}
