// The paths of a reference: a V-hit, an R-hit, an R-miss.
ghost use Rattle.std.specs.Prelude.{◌≡◌, ℕ, ◌<◌, Some, None};
ghost use Rattle.base.specs.Blocks.{block_of};
ghost use Rattle.base.specs.Sizes.{addresses};
ghost use Rattle.machine.specs.Paths.{Found, Path, hit_step, miss_step, r_hit_step, r_miss_step};
ghost use Rattle.machine.specs.State.{board, rules_of};
ghost use Rattle.rules.specs.Bus.{proc_at};
ghost use Rattle.rules.specs.Cache.{r_find, v_find};

use crate::answer::Access;
use crate::claim::claim;
use crate::fetched::{fetched_entry, miss_messages, write_back};
use crate::machine::Machine;
use crate::reference::Reference;
use base::block::PhysicalBlock;
use bus::pass::fetch;
use caches::cell::{entry_at, home, line_at};
use caches::choice::line_used;
use caches::count::count_up;
use caches::find::find_entry;
use faults::machine_fault::MachineFault;
use lines::line::Level;
use memory::memory::Memory;
use paging::map::Map;
use processors::finish::finish;
use replacement::rule::Rule;
use steps::attach::attach;
use steps::room::{install, make_room};
use tables::types::Place;

impl<M: Map, S: Memory, V: Rule, R: Rule> Machine<M, S, V, R> {
    // The three paths below end alike: as a method, their end would have to promise each field that it leaves.

    // A valid line has the tag.
    pub(crate) fn hit(&mut self, r: Reference, way: usize) -> Result<Access, MachineFault>
        ensures { Path M.Map S.Memory V.Rule R.Rule r self.old self.new result (v_find (proc_at self.old.processors r.processor.0) (block_of r.address.0) ≡ Some way) (hit_step (rules_of M.Map S.Memory V.Rule R.Rule self.old) (board M.Map S.Memory V.Rule R.Rule self.old) r way) }
    {
        let cpu = r.cpu();
        let line = Place { set: r.set(), way };
        let home = line_at(&self.processors[cpu], line).rplace;
        let sent = claim(
            &mut self.processors,
            self.count as usize,
            self.held,
            r,
            home,
        )?;
        line_used(&mut self.processors[cpu], &self.rules.v, line);
        let word = finish(&mut self.processors[cpu], line, r.word(), r.value);
        count_up(&mut self.accepted);
        Ok(Access {
            level: Level::VHit,
            word,
            sent,
        })
    }

    // The R-cache has the block at `way`.
    fn entry_hit(
        &mut self,
        r: Reference,
        block: PhysicalBlock,
        way: usize,
    ) -> Result<Access, MachineFault>
        ensures { Path M.Map S.Memory V.Rule R.Rule r self.old self.new result (Found (board M.Map S.Memory V.Rule R.Rule self.old) r block.0 × (r_find (proc_at self.old.processors r.processor.0) block.0 ≡ Some way)) (r_hit_step (rules_of M.Map S.Memory V.Rule R.Rule self.old) (board M.Map S.Memory V.Rule R.Rule self.old) r block.0 way) }
    {
        let cpu = r.cpu();
        let home = home(block, way);
        let child = entry_at(&self.processors[cpu], home).child;
        let sent = claim(
            &mut self.processors,
            self.count as usize,
            self.held,
            r,
            home,
        )?;
        let found = attach(
            &mut self.processors[cpu],
            &self.rules,
            child,
            r.block(),
            block,
            way,
        );
        let line = Place {
            set: r.set(),
            way: found.way,
        };
        let word = finish(&mut self.processors[cpu], line, r.word(), r.value);
        count_up(&mut self.accepted);
        Ok(Access {
            level: found.level,
            word,
            sent,
        })
    }

    // The R-cache has no such block: room is made, and the block is fetched.
    fn entry_miss(&mut self, r: Reference, block: PhysicalBlock) -> Result<Access, MachineFault>
        ensures { Path M.Map S.Memory V.Rule R.Rule r self.old self.new result (Found (board M.Map S.Memory V.Rule R.Rule self.old) r block.0 × (r_find (proc_at self.old.processors r.processor.0) block.0 ≡ None)) (r_miss_step (rules_of M.Map S.Memory V.Rule R.Rule self.old) (board M.Map S.Memory V.Rule R.Rule self.old) r block.0) }
    {
        if self.held {
            return Err(MachineFault::BusHeld(r.processor));
        }
        let cpu = r.cpu();
        let tag = r.block();
        let room = make_room(&mut self.processors[cpu], &self.rules, tag, block);
        write_back(&mut self.memory, &room.replaced);
        let exclusive = r.value.is_some();
        let count = self.count as usize;
        let sender = r.sender();
        let shared = fetch(
            &mut self.processors,
            &mut self.memory,
            count,
            sender,
            block,
            exclusive,
        );
        let words = self
            .memory
            .read(block)
            .map_err(|fault| (fault, r.caller()))?;
        let entry = fetched_entry(block, words, exclusive, shared.acked);
        let line = Place {
            set: r.set(),
            way: room.line_way,
        };
        let home = home(block, room.entry_way);
        install(
            &mut self.processors[cpu],
            &self.rules,
            line,
            home,
            tag,
            entry,
        );
        let word = finish(&mut self.processors[cpu], line, r.word(), r.value);
        count_up(&mut self.accepted);
        Ok(Access {
            level: Level::Miss,
            word,
            sent: miss_messages(
                r.processor,
                &room.replaced,
                shared.supplier,
                block,
                exclusive,
            ),
        })
    }

    // No valid line has the tag: the map gives the frame, and the R-set is searched.
    pub(crate) fn miss(&mut self, r: Reference) -> Result<Access, MachineFault>
        ensures { Path M.Map S.Memory V.Rule R.Rule r self.old self.new result (r.address.0 < addresses) (miss_step (rules_of M.Map S.Memory V.Rule R.Rule self.old) (board M.Map S.Memory V.Rule R.Rule self.old) r) }
    {
        let cpu = r.cpu();
        let process = self.processors[cpu].process;
        let block = self
            .map
            .look_up(process, r.block())
            .map_err(|fault| (fault, r.caller()))?;
        if u16::from(block) >= self.memory.count_blocks() {
            return Err(MachineFault::BeyondMemory(r.processor));
        }
        match find_entry(&self.processors[cpu], block) {
            Some(way) => self.entry_hit(r, block, way),
            None => self.entry_miss(r, block),
        }
    }
}
