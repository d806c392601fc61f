// Setting a machine up, and taking it apart.
ghost use Rattle.std.specs.Prelude.{◌≡◌, ℕ, []};
ghost use Rattle.bus.specs.Passes.{blocks_of};
ghost use Rattle.machine.specs.SetUp.{Checks, setup_of};
ghost use Rattle.machine.specs.State.{HasPast, board, rules_of};
ghost use Rattle.rules.specs.Bus.{Blocks};
ghost use Rattle.rules.specs.Calls.{made};

use crate::machine::Machine;
use crate::parts::Parts;
use base::size::PAGE_BLOCKS;
use faults::machine_fault::{MachineFault, SetupFault};
use memory::memory::Memory;
use paging::map::Map;
use processors::new::new_processors;
use replacement::cache_rules::CacheRules;
use replacement::rule::Rule;
use tables::types::PROCESSORS;

// Why a machine with so many processors and blocks cannot be set up.
fn setup_fault(processors: u8, blocks: u16) -> Option<SetupFault>
    ensures { result ≡ setup_of processors blocks }
{
    if processors == 0 || processors as usize > PROCESSORS {
        return Some(SetupFault::Processors);
    }
    if blocks == 0 || blocks % PAGE_BLOCKS != 0 {
        return Some(SetupFault::MemorySize);
    }
    None
}

impl<M: Map, S: Memory, V: Rule, R: Rule> Machine<M, S, V, R> {
    // Whether a machine can be set up with so many processors and this memory.
    pub fn check(processors: u8, memory: &S) -> Result<(), MachineFault>
        ensures { S.Memory.sound memory.now → Checks processors (S.Memory.count memory.now) result }
    {
        match setup_fault(processors, memory.count_blocks()) {
            Some(fault) => Err(MachineFault::Setup(fault)),
            None => Ok(()),
        }
    }

    // A machine with a number of its own, its caches empty and every processor at process 0. Where it cannot be set up,
    // every call answers so.
    pub fn new(
        map: M,
        memory: S,
        v_rule: V,
        r_rule: R,
        processors: u8,
        number: u8,
    ) -> Machine<M, S, V, R>
        ensures board { S.Memory.sound memory → board M.Map S.Memory V.Rule R.Rule result ≡ made (rules_of M.Map S.Memory V.Rule R.Rule result) processors number (blocks_of S.Memory memory) (S.Memory.count memory) (M.Map.frame map) }
        ensures parts { (result.map ≡ map) × (result.memory ≡ memory) × (result.rules.v ≡ v_rule) × (result.rules.r ≡ r_rule) }
        ensures past { M.Map.sound map → S.Memory.sound memory → HasPast M.Map S.Memory V.Rule R.Rule (record { table = M.Map.frame map; blocks = blocks_of S.Memory memory }) [] result }
    {
        let setup = setup_fault(processors, memory.count_blocks());
        let rules = CacheRules {
            v: v_rule,
            r: r_rule,
        };
        let records = new_processors(&rules);
        Machine {
            map,
            memory,
            rules,
            processors: records,
            count: processors,
            held: false,
            accepted: 0,
            setup,
            number,
        }
    }

    // The map, the memory and the rules come back. What is newer in the caches is not written back.
    pub fn into_parts(self) -> Parts<M, S, V, R>
        ensures parts { (result.map ≡ self.map) × (result.memory ≡ self.memory) × (result.v_rule ≡ self.rules.v) × (result.r_rule ≡ self.rules.r) }
        ensures blocks { blocks_of S.Memory result.memory ≡ (board M.Map S.Memory V.Rule R.Rule self).mem }
        ensures frames { M.Map.frame result.map ≡ (board M.Map S.Memory V.Rule R.Rule self).table }
    {
        let Machine {
            map,
            memory,
            rules: CacheRules {
                v: v_rule,
                r: r_rule,
            },
            processors: _,
            count: _,
            held: _,
            accepted: _,
            setup: _,
            number: _,
        } = self;
        Parts {
            map,
            memory,
            v_rule,
            r_rule,
        }
    }
}
