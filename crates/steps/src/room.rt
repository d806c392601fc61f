// Room for a block in both caches, and the block that comes in.
ghost use Rattle.std.specs.Prelude.{◌≡◌, ℕ, ◌-◌, ◌%◌, ◌^◌, ◌<◌, Option};
ghost use Rattle.caches.specs.Choice.{rule_of};
ghost use Rattle.caches.specs.Ranged.{Ranged};
ghost use Rattle.rules.specs.Bus.{Blocks};
ghost use Rattle.rules.specs.Cache.{free_line, v_way};
ghost use Rattle.rules.specs.Sizes.{r_sets, r_ways, v_sets, v_ways};
ghost use Rattle.rules.specs.Sound.{ProcOk};
ghost use Rattle.steps.specs.Steps.{Rooms, installed};

use crate::found::Room;
use base::block::{PhysicalBlock, VirtualBlock};
use caches::cell::{entry_at, home, put_entry};
use caches::choice::{entry_loaded, entry_way, line_loaded, line_way};
use caches::count::count_up;
use caches::entry::evict;
use caches::line::{fill_line, free_child, free_line};
use replacement::cache_rules::CacheRules;
use replacement::rule::Rule;
use tables::types::{Place, Processor, R_SETS, REntry, V_SETS};

// The V-way that is next in a tag's set is freed; answers its place.
#[tactic(auto, unfolding(rules::specs::Sizes::v_sets))]
pub(crate) fn free_way<V: Rule>(p: &mut Processor, rule: &V, tag: VirtualBlock) -> Place
    ensures set { result.set ≡ tag.0 % v_sets }
    ensures way { result.way ≡ v_way (rule_of V.Rule rule.now) p.old (tag.0 % v_sets) }
    ensures within { result.way < v_ways }
    ensures processor { Ranged p.old → p.new ≡ free_line p.old result.set result.way }
{
    let set = usize::from(tag) % V_SETS;
    let way = line_way(p, rule, set);
    let at = Place { set, way };
    free_line(p, at);
    at
}

// A V-way is freed for a virtual block, and then an R-way for its physical one.
pub fn make_room<V: Rule, R: Rule>(
    p: &mut Processor,
    rules: &CacheRules<V, R>,
    tag: VirtualBlock,
    block: PhysicalBlock,
) -> Room
    ensures room { (T : ℕ → Option ℕ) (f : Blocks) → ProcOk T f p.old → p.old.counts.replaced < 2 ^ 32 - 1 → Rooms (rule_of V.Rule rules.now.v) (rule_of R.Rule rules.now.r) p.old (tag.0 % v_sets) (block.0 % r_sets) p.new result }
    ensures lines { result.line_way < v_ways }
    ensures entries { result.entry_way < r_ways }
{
    let line = free_way(p, &rules.v, tag);
    let set = usize::from(block) % R_SETS;
    let entry_way = entry_way(p, &rules.r, set);
    let home = home(block, entry_way);
    let child = entry_at(p, home).child;
    free_child(p, child);
    let replaced = evict(p, home);
    Room {
        line_way: line.way,
        entry_way,
        replaced,
    }
}

// A fetched entry takes the freed R-way, and a line the freed V-way.
pub fn install<V: Rule, R: Rule>(
    p: &mut Processor,
    rules: &CacheRules<V, R>,
    line: Place,
    home: Place,
    tag: VirtualBlock,
    entry: REntry,
)
    ensures { line.set < v_sets → line.way < v_ways → home.set < r_sets → home.way < r_ways → p.old.counts.fetched < 2 ^ 32 - 1 → p.new ≡ installed (rule_of V.Rule rules.now.v) (rule_of R.Rule rules.now.r) p.old line.set line.way home.set home.way tag.0 entry }
{
    put_entry(p, home, entry);
    count_up(&mut p.counts.fetched);
    fill_line(p, line, home, tag);
    line_loaded(p, &rules.v, line);
    entry_loaded(p, &rules.r, home);
}
