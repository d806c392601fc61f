ghost use Rattle.std.specs.Prelude.{◌+◌, ◌^◌, ◌<◌, length};

use crate::decode::decode;
use crate::fault::FormatFault;
use crate::record::Record;

// the most words that a trace has
pub const TRACE_WORDS: usize = 16_384;

// The records of a trace's words, one after another, each with its number, and then the trace's fault, if it has one.
// `loose` says that bytes are left over after the words: they begin a record that is cut short.
#[derive(Drop)]
pub struct Records<'a> {
    words: &'a [u32],
    loose: bool,
    number: u32,
    ghost few: { number + length words.now < 2 ^ 32 },
}

impl<'a> Records<'a> {
    ghost use Rattle.records.specs.Told.{Begins};

    // All records of the words, counted from 0. Refused where there are more words than a trace has.
    pub fn new(words: &'a [u32], loose: bool) -> Result<Records<'a>, FormatFault>
        ensures { Begins loose words.now result }
    {
        if words.len() > TRACE_WORDS {
            return Err(FormatFault::TooLong);
        }
        Ok(Records {
            words,
            loose,
            number: 0,
        })
    }
}

impl<'a> Iterator for Records<'a> {
    ghost use Rattle.std.specs.Iterator.{YieldsFirst, item_count};
    ghost use Rattle.records.specs.Told.{told_by};

    type Item = Result<(u32, Record), FormatFault>;

    ghost next_gives = { YieldsFirst told_by };

    ghost remaining = { item_count told_by };

    fn next(&mut self) -> Option<Result<(u32, Record), FormatFault>> {
        if self.words.is_empty() && !self.loose {
            return None;
        }
        let number = self.number;
        match decode(self.words, number) {
            Ok((record, rest)) => {
                self.words = rest;
                self.number += 1;
                Some(Ok((number, record)))
            }
            Err(fault) => {
                self.words = &[];
                self.loose = false;
                Some(Err(fault))
            }
        }
    }
}
