// The records of the processors of a new board.
ghost use Rattle.std.specs.Prelude.{◌≡◌, replicate};
ghost use Rattle.caches.specs.Choice.{rule_of};
ghost use Rattle.rules.specs.Cache.{new_processor};
ghost use Rattle.rules.specs.Sizes.{most_processors};

use base::block::Process;
use caches::blank::{no_entry, no_line};
use replacement::cache_rules::CacheRules;
use replacement::rule::Rule;
use tables::types::{Counts, PROCESSORS, Processor, Processors, R_SETS, R_WAYS, V_SETS, V_WAYS};

// The record of one processor of a new board.
#[tactic(auto, unfolding(rules::specs::Sizes::v_sets, rules::specs::Sizes::v_ways, rules::specs::Sizes::r_sets, rules::specs::Sizes::r_ways))]
fn new_processor<V: Rule, R: Rule>(rules: &CacheRules<V, R>) -> Processor
    ensures { result ≡ new_processor (rule_of V.Rule rules.now.v) (rule_of R.Rule rules.now.r) }
{
    Processor {
        v: [[no_line(); V_WAYS]; V_SETS],
        r: [[no_entry(); R_WAYS]; R_SETS],
        vrule: [rules.v.first_word(); V_SETS],
        rrule: [rules.r.first_word(); R_SETS],
        process: Process(0),
        counts: Counts::default(),
    }
}

// The records of a new board: empty caches, the rules' first words, process 0, nothing counted.
pub fn new_processors<V: Rule, R: Rule>(rules: &CacheRules<V, R>) -> Processors
    ensures { result ≡ replicate most_processors (new_processor (rule_of V.Rule rules.now.v) (rule_of R.Rule rules.now.r)) }
{
    [new_processor(rules); PROCESSORS]
}
