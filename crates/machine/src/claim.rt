// What a write does first where it finds its entry shared.
ghost use Rattle.std.specs.Prelude.{◌≡◌, ℕ, ◌<◌};
ghost use Rattle.bus.specs.Passes.{Snoopable};
ghost use Rattle.machine.specs.References.{Claims};
ghost use Rattle.rules.specs.Sizes.{most_processors, r_sets, r_ways};

use crate::answer::Sent;
use crate::reference::Reference;
use bus::pass::invalidate;
use caches::cell::entry_at;
use faults::machine_fault::MachineFault;
use processors::claim::{make_private, needs_upgrade};
use tables::message::{Message, MessageKind, Supplier};
use tables::types::{Place, Processors};

// A write that finds the entry at `home` shared sends an invalidation, and the entry becomes private; it is refused where
// the bus is held. Any other reference sends nothing.
pub(crate) fn claim(
    processors: &mut Processors,
    count: usize,
    held: bool,
    r: Reference,
    home: Place,
) -> Result<Sent, MachineFault>
    ensures { r.processor.0 < most_processors → Snoopable count processors.old → home.set < r_sets → home.way < r_ways → Claims held r count home.set home.way processors.old processors.new result }
{
    let entry = entry_at(&processors[r.cpu()], home);
    if !needs_upgrade(r.value, &entry) {
        return Ok(Sent::Nothing);
    }
    if held {
        return Err(MachineFault::BusHeld(r.processor));
    }
    invalidate(processors, count, r.sender(), entry.block);
    make_private(&mut processors[r.cpu()], home);
    Ok(Sent::One(Message {
        kind: MessageKind::Invalidation,
        sender: r.sender(),
        supplier: Supplier::NoData,
        block: entry.block,
    }))
}
