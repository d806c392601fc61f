// A line comes to hold the block of an entry that the R-cache has: it is retagged, moved or filled.
ghost use Rattle.std.specs.Prelude.{◌≡◌, ℕ, ◌<◌};
ghost use Rattle.caches.specs.Choice.{rule_of};
ghost use Rattle.caches.specs.Ranged.{ChildIn, Ranged};
ghost use Rattle.rules.specs.Calls.{attach as attached};
ghost use Rattle.rules.specs.Sizes.{r_sets, r_ways};
ghost use Rattle.steps.specs.Steps.{Attaches, linked};

use crate::found::Found;
use crate::room::free_way;
use base::block::{PhysicalBlock, VirtualBlock};
use caches::cell::home;
use caches::choice::{entry_used, line_loaded, line_used};
use caches::line::{fill_line, move_line, retag};
use lines::line::Level;
use replacement::cache_rules::CacheRules;
use replacement::rule::Rule;
use tables::types::{Child, Place, Processor, V_SETS};

// The line of the entry at `home`, whose child is `child`. A child in the tag's V-set becomes valid under the tag, and
// one in another V-set moves to a way that is freed; where there is no child, a way is freed and filled.
#[tactic(auto, unfolding(rules::specs::Sizes::v_sets))]
fn link<V: Rule>(p: &mut Processor, rule: &V, child: Child, home: Place, tag: VirtualBlock) -> Found
    ensures { Ranged p.old → ChildIn child → home.set < r_sets → home.way < r_ways → Attaches p.new result (linked child (rule_of V.Rule rule.now) p.old tag.0 home) }
{
    match child {
        Child::At { place, .. } => {
            if place.set == usize::from(tag) % V_SETS {
                retag(p, place, tag);
                line_used(p, rule, place);
                Found {
                    way: place.way,
                    level: Level::Synonym,
                }
            } else {
                let to = free_way(p, rule, tag);
                move_line(p, place, to, home, tag);
                line_loaded(p, rule, to);
                Found {
                    way: to.way,
                    level: Level::Synonym,
                }
            }
        }
        Child::NoChild => {
            let to = free_way(p, rule, tag);
            fill_line(p, to, home, tag);
            line_loaded(p, rule, to);
            Found {
                way: to.way,
                level: Level::RHit,
            }
        }
    }
}

// The line of a block that the R-cache has at `way`, where `child` is that entry's child.
#[tactic(auto, using(crate::proofs::Attaching::attached, rules::proofs::Sizes::r_set_in))]
pub fn attach<V: Rule, R: Rule>(
    p: &mut Processor,
    rules: &CacheRules<V, R>,
    child: Child,
    tag: VirtualBlock,
    block: PhysicalBlock,
    way: usize,
) -> Found
    ensures { Ranged p.old → ChildIn child → way < r_ways → Attaches p.new result (attached child (rule_of V.Rule rules.now.v) (rule_of R.Rule rules.now.r) p.old tag.0 block.0 way) }
{
    let home = home(block, way);
    let found = link(p, &rules.v, child, home, tag);
    entry_used(p, &rules.r, home);
    found
}
