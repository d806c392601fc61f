// The end of a reference.
ghost use Rattle.std.specs.Prelude.{◌≡◌, ◌<◌};
ghost use Rattle.base.specs.Sizes.{block_words};
ghost use Rattle.caches.specs.Ranged.{Ranged};
ghost use Rattle.processors.specs.Finish.{answered, finished};
ghost use Rattle.rules.specs.Cache.{line_at};
ghost use Rattle.rules.specs.Invariant.{Filled};
ghost use Rattle.rules.specs.Sizes.{v_sets, v_ways};

use base::size::BLOCK_WORDS;
use caches::line::store_word;
use tables::types::{Place, Processor, V_SETS, V_WAYS};

// The end of a reference to a word of a processor's line: a write stores its value, a read answers the word, of which alone
// it reads the table.
#[tactic(auto, using(caches::proofs::Modulo::modulo), unfolding(rules::specs::Sizes::v_sets, rules::specs::Sizes::v_ways))]
pub fn finish(p: &mut Processor, line: Place, word: usize, value: Option<u32>) -> u32
    ensures processor { Ranged p.old → Filled (line_at p.old line.set line.way) → line.set < v_sets → line.way < v_ways → word < block_words → p.new ≡ finished value p.old line.set line.way word }
    ensures answer { line.set < v_sets → line.way < v_ways → word < block_words → result ≡ answered value p.old line.set line.way word }
{
    match value {
        None => p.v[line.set % V_SETS][line.way % V_WAYS].words[word % BLOCK_WORDS],
        Some(value) => {
            store_word(p, line, word, value);
            0
        }
    }
}
