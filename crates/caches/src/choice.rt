// Which way of a set is next to be replaced, and what the replacement rules keep.
ghost use Rattle.std.specs.Prelude.{◌≡◌, ℕ, ◌%◌, ◌<◌, Bool, nat_lt};
ghost use Rattle.caches.specs.Choice.{asked_by, rule_of, ways_below};
ghost use Rattle.caches.specs.Found.{FoundBelow};
ghost use Rattle.replacement.specs.Sizes.{ways};
ghost use Rattle.rules.specs.Basic.{both, first_below, flags};
ghost use Rattle.rules.specs.Cache.{childless, entry_at, is_absent, is_empty, line_at, r_loaded, r_used, r_way, v_loaded, v_used, v_way};
ghost use Rattle.rules.specs.Sizes.{r_sets, r_ways, v_sets, v_ways};

use replacement::rule::{Rule, WaySet};
use std::array;
use tables::types::{
    Child, EntryState, LineState, Place, Processor, R_SETS, R_WAYS, REntry, V_SETS, V_WAYS, VLine,
};

// The three searches below are a call of `position` each, with the test of a cell that the rules name.

// Whether a line holds nothing.
fn is_empty(line: &VLine) -> bool
    ensures { result ≡ is_empty line.now.state }
{
    line.state == LineState::Empty
}

// The lowest empty way of a V-set.
fn first_empty(p: &Processor, set: usize) -> Option<usize>
    ensures way { result ≡ first_below v_ways (λ w. is_empty (line_at p.now (set % v_sets) w).state) }
    ensures within { FoundBelow v_ways result }
{
    p.v[set % V_SETS].iter().position(is_empty)
}

// A flag for each way: whether it is below n.
fn ways_below(n: usize) -> WaySet
    ensures { result ≡ ways_below n }
{
    array::from_fn(|way| way < n)
}

// The way for a new line of a V-set: the lowest empty one, else the rule's choice.
pub fn line_way<V: Rule>(p: &Processor, rule: &V, set: usize) -> usize
    ensures way { set < v_sets → result ≡ v_way (rule_of V.Rule rule.now) p.now set }
    ensures within { result < v_ways }
{
    first_empty(p, set).unwrap_or_else(|| {
        usize::from(rule.choose(p.vrule[set % V_SETS], ways_below(V_WAYS)))
    })
}

// Whether an entry holds nothing.
fn is_absent(entry: &REntry) -> bool
    ensures { result ≡ is_absent entry.now.state }
{
    entry.state == EntryState::Absent
}

// The lowest absent way of an R-set.
fn first_absent(p: &Processor, set: usize) -> Option<usize>
    ensures way { result ≡ first_below r_ways (λ w. is_absent (entry_at p.now (set % r_sets) w).state) }
    ensures within { FoundBelow r_ways result }
{
    p.r[set % R_SETS].iter().position(is_absent)
}

// Whether an entry has no child.
fn is_childless(entry: &REntry) -> bool
    ensures { result ≡ childless entry.now }
{
    entry.child == Child::NoChild
}

// The lowest way of an R-set without a child.
fn first_childless(p: &Processor, set: usize) -> Option<usize>
    ensures { result ≡ first_below r_ways (λ w. childless (entry_at p.now (set % r_sets) w)) }
{
    p.r[set % R_SETS].iter().position(is_childless)
}

// A flag for each way of an R-set: whether its entry has no child.
#[tactic(auto, unfolding(rules::specs::Sizes::r_sets, rules::specs::Sizes::r_ways))]
fn childless_ways(p: &Processor, set: usize) -> WaySet
    ensures { result ≡ flags ways (λ w. both (nat_lt w r_ways) (childless (entry_at p.now (set % r_sets) w))) }
{
    array::from_fn(|way| is_childless(&p.r[set % R_SETS][way]))
}

// The ways of an R-set that the rule chooses among: those without a child where there is one, else all.
fn asked_ways(p: &Processor, set: usize) -> WaySet
    ensures { result ≡ asked_by (flags ways (λ w. both (nat_lt w r_ways) (childless (entry_at p.now (set % r_sets) w)))) (first_below r_ways (λ w. childless (entry_at p.now (set % r_sets) w))) }
{
    match first_childless(p, set) {
        Some(_) => childless_ways(p, set),
        None => ways_below(R_WAYS),
    }
}

// The way for a new entry of an R-set: the lowest absent one, else the rule's choice.
pub fn entry_way<R: Rule>(p: &Processor, rule: &R, set: usize) -> usize
    ensures way { set < r_sets → result ≡ r_way (rule_of R.Rule rule.now) p.now set }
    ensures within { result < r_ways }
{
    first_absent(p, set).unwrap_or_else(|| {
        usize::from(rule.choose(p.rrule[set % R_SETS], asked_ways(p, set)))
    })
}

// The four below differ in the array and in the rule's method: each is two lines, and a generic one would be longer.

// A line was used.
#[tactic(auto, using(crate::proofs::Modulo::modulo), unfolding(rules::specs::Sizes::v_sets, rules::specs::Sizes::v_ways))]
pub fn line_used<V: Rule>(p: &mut Processor, rule: &V, at: Place)
    ensures { at.set < v_sets → at.way < v_ways → p.new ≡ v_used (rule_of V.Rule rule.now) p.old at.set at.way }
{
    let set = at.set % V_SETS;
    p.vrule[set] = rule.after_use(p.vrule[set], (at.way % V_WAYS) as u8);
}

// A line was loaded.
#[tactic(auto, using(crate::proofs::Modulo::modulo), unfolding(rules::specs::Sizes::v_sets, rules::specs::Sizes::v_ways))]
pub fn line_loaded<V: Rule>(p: &mut Processor, rule: &V, at: Place)
    ensures { at.set < v_sets → at.way < v_ways → p.new ≡ v_loaded (rule_of V.Rule rule.now) p.old at.set at.way }
{
    let set = at.set % V_SETS;
    p.vrule[set] = rule.after_load(p.vrule[set], (at.way % V_WAYS) as u8);
}

// An entry was used.
#[tactic(auto, using(crate::proofs::Modulo::modulo), unfolding(rules::specs::Sizes::r_sets, rules::specs::Sizes::r_ways))]
pub fn entry_used<R: Rule>(p: &mut Processor, rule: &R, at: Place)
    ensures { at.set < r_sets → at.way < r_ways → p.new ≡ r_used (rule_of R.Rule rule.now) p.old at.set at.way }
{
    let set = at.set % R_SETS;
    p.rrule[set] = rule.after_use(p.rrule[set], (at.way % R_WAYS) as u8);
}

// An entry was loaded.
#[tactic(auto, using(crate::proofs::Modulo::modulo), unfolding(rules::specs::Sizes::r_sets, rules::specs::Sizes::r_ways))]
pub fn entry_loaded<R: Rule>(p: &mut Processor, rule: &R, at: Place)
    ensures { at.set < r_sets → at.way < r_ways → p.new ≡ r_loaded (rule_of R.Rule rule.now) p.old at.set at.way }
{
    let set = at.set % R_SETS;
    p.rrule[set] = rule.after_load(p.rrule[set], (at.way % R_WAYS) as u8);
}
