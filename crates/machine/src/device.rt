// The device: it takes the bus, moves blocks, and gives the bus back.
ghost use Rattle.std.specs.Prelude.{◌≡◌, true, false, length, IfOk, None, Ok, OnOk};
ghost use Rattle.base.specs.Sizes.{block_words};
ghost use Rattle.machine.specs.State.{Performs, Sound};
ghost use Rattle.machine.specs.Transfers.{BlockReads, BlockWrites, Checks, DeviceReads, DeviceWrites, Moves, Releases, Returns, Takes, Unaltered, release_told, tenure_told};
ghost use Rattle.rules.specs.Run.{device_reading, device_writing, releasing, taking};

use crate::machine::Machine;
use crate::tenure::Tenure;
use base::block::PhysicalBlock;
use base::size::BLOCK_WORDS;
use bus::pass::{invalidate, share};
use caches::count::count_up;
use faults::machine_fault::{Caller, MachineFault};
use memory::memory::Memory;
use paging::map::Map;
use replacement::rule::Rule;
use tables::message::{Message, MessageKind, Sender, Supplier};

impl<M, S, V, R> Machine<M, S, V, R> {
    // Whether the bus is held, and under this tenure's number.
    fn check_tenure(&self, tenure: &Tenure) -> Result<(), MachineFault>
        ensures { result ≡ tenure_told self.now.held self.now.number tenure.now.machine }
    {
        if self.held && tenure.machine == self.number {
            Ok(())
        } else {
            Err(MachineFault::NoTenure)
        }
    }

    // Whether a tenure can be released.
    fn check_release(&self, tenure: &Tenure) -> Result<(), MachineFault>
        ensures { result ≡ release_told self.now.setup self.now.held self.now.number tenure.now.machine }
    {
        self.is_set_up()?;
        self.check_tenure(tenure)
    }
}

impl<M: Map, S: Memory, V: Rule, R: Rule> Machine<M, S, V, R> {
    // The device takes the bus.
    pub fn take(&mut self) -> Result<Tenure, MachineFault>
        ensures call { Performs M.Map S.Memory V.Rule R.Rule taking self.old self.new (Takes self.old.number result) }
        ensures live { IfOk result (λ t. (t.live ≡ true) × (t.machine ≡ self.old.number)) }
        ensures held { OnOk result (self.new.held ≡ true) }
        ensures free { OnOk result (self.old.held ≡ false) }
        ensures ready { OnOk result (self.new.setup ≡ None) }
        ensures kept { Unaltered self.old self.new result }
        ensures number { self.new.number ≡ self.old.number }
        ensures setup { self.new.setup ≡ self.old.setup }
    {
        self.is_set_up()?;
        if self.held {
            return Err(MachineFault::BusTaken);
        }
        self.held = true;
        Ok(Tenure {
            machine: self.number,
            live: true,
        })
    }

    // The bus is given back. A refused release hands the tenure back; so a match, as each arm ends the tenure in its way.
    pub fn release(&mut self, tenure: Tenure) -> Result<(), (MachineFault, Tenure)>
        ensures call { Performs M.Map S.Memory V.Rule R.Rule (releasing tenure.machine) self.old self.new (Releases tenure result) }
        ensures back { Returns tenure result }
        ensures spent { self.old.setup ≡ None → self.old.held ≡ true → tenure.machine ≡ self.old.number → result ≡ Ok tt }
        ensures held { OnOk result (self.new.held ≡ false) }
        ensures kept { Unaltered self.old self.new result }
        ensures number { self.new.number ≡ self.old.number }
        ensures setup { self.new.setup ≡ self.old.setup }
    {
        match self.check_release(&tenure) {
            Ok(()) => {
                let mut spent = tenure;
                spent.live = false;
                self.held = false;
                Ok(())
            }
            Err(fault) => Err((fault, tenure)),
        }
    }

    // `held`, `number` and `setup` are clauses of their own here and in the transfers: each caller names the one it needs.

    // Whether a transfer of a block, with a slice of so many words, can be accepted.
    fn check_transfer(
        &mut self,
        tenure: &Tenure,
        block: PhysicalBlock,
        size: usize,
    ) -> Result<(), MachineFault>
        ensures found { Sound M.Map S.Memory V.Rule R.Rule self.old → Checks M.Map S.Memory V.Rule R.Rule tenure.now.machine block size self.old self.new result }
        ensures words { OnOk result (size ≡ block_words) }
        ensures held { self.new.held ≡ self.old.held }
        ensures number { self.new.number ≡ self.old.number }
        ensures setup { self.new.setup ≡ self.old.setup }
    {
        self.admit(Caller::Device)?;
        self.check_tenure(tenure)?;
        self.memory
            .read(block)
            .map_err(|fault| (fault, Caller::Device))?;
        if size != BLOCK_WORDS {
            return Err(MachineFault::SliceLength);
        }
        Ok(())
    }

    // Reads a block into the slice, which is unchanged where the transfer is refused. Answers the message.
    pub fn device_read(
        &mut self,
        tenure: &Tenure,
        block: PhysicalBlock,
        words: &mut [u32],
    ) -> Result<Message, MachineFault>
        ensures call { Performs M.Map S.Memory V.Rule R.Rule (device_reading tenure.now.machine block.0 (length words.old)) self.old self.new (DeviceReads block words.old words.new result) }
        ensures kept { Unaltered words.old words.new result }
        ensures held { self.new.held ≡ self.old.held }
        ensures number { self.new.number ≡ self.old.number }
        ensures setup { self.new.setup ≡ self.old.setup }
    {
        self.check_transfer(tenure, block, words.len())?;
        let count = self.count as usize;
        let shared = share(
            &mut self.processors,
            &mut self.memory,
            count,
            Sender::Device,
            block,
        );
        let read = self
            .memory
            .read(block)
            .map_err(|fault| (fault, Caller::Device))?;
        words.copy_from_slice(&read);
        count_up(&mut self.accepted);
        Ok(Message {
            kind: MessageKind::DeviceRead,
            sender: Sender::Device,
            supplier: shared.supplier,
            block,
        })
    }

    // Writes a block from the slice. Answers the message.
    pub fn device_write(
        &mut self,
        tenure: &Tenure,
        block: PhysicalBlock,
        words: &[u32],
    ) -> Result<Message, MachineFault>
        ensures call { Performs M.Map S.Memory V.Rule R.Rule (device_writing tenure.now.machine block.0 words.now) self.old self.new (DeviceWrites block result) }
        ensures held { self.new.held ≡ self.old.held }
        ensures number { self.new.number ≡ self.old.number }
        ensures setup { self.new.setup ≡ self.old.setup }
    {
        self.check_transfer(tenure, block, words.len())?;
        let mut four = [0; BLOCK_WORDS];
        four.copy_from_slice(words);
        invalidate(
            &mut self.processors,
            self.count as usize,
            Sender::Device,
            block,
        );
        self.memory
            .write(block, four)
            .map_err(|fault| (fault, Caller::Device))?;
        count_up(&mut self.accepted);
        Ok(Message {
            kind: MessageKind::DeviceWrite,
            sender: Sender::Device,
            supplier: Supplier::NoData,
            block,
        })
    }

    // This call and the next differ in the transfer between take and release. As a closure parameter its contract would say
    // of any closure what `device_read` and `device_write` say, and would be no plainer.

    // A read of a block that takes the bus itself and gives it back, refused or not.
    pub fn read_block(
        &mut self,
        block: PhysicalBlock,
        words: &mut [u32],
    ) -> Result<Message, MachineFault>
        ensures call { Moves M.Map S.Memory V.Rule R.Rule (λ t. device_reading t block.0 (length words.old)) self.old self.new (BlockReads block words.old words.new result) }
        ensures kept { Unaltered words.old words.new result }
        ensures held { self.new.held ≡ self.old.held }
        ensures number { self.new.number ≡ self.old.number }
        ensures setup { self.new.setup ≡ self.old.setup }
    {
        let tenure = self.take()?;
        let moved = self.device_read(&tenure, block, words);
        self.release(tenure).unwrap();
        moved
    }

    // A write of a block that takes the bus itself and gives it back, refused or not.
    pub fn write_block(
        &mut self,
        block: PhysicalBlock,
        words: &[u32],
    ) -> Result<Message, MachineFault>
        ensures call { Moves M.Map S.Memory V.Rule R.Rule (λ t. device_writing t block.0 words.now) self.old self.new (BlockWrites block result) }
        ensures held { self.new.held ≡ self.old.held }
        ensures number { self.new.number ≡ self.old.number }
        ensures setup { self.new.setup ≡ self.old.setup }
    {
        let tenure = self.take()?;
        let moved = self.device_write(&tenure, block, words);
        self.release(tenure).unwrap();
        moved
    }
}
