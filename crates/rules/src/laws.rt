// The laws of every run of the rules, each in the contract of a function that does nothing else.
ghost use Rattle.rules.specs.Example.{WorkedExample};
ghost use Rattle.rules.specs.Exhibit.{Exhibited};
ghost use Rattle.rules.specs.Laws.{CachesPointAtEachOther, FetchedBlocksAccounted, LawsOfRuns, ModifiedBlocksHeldOnce, ReadsAnswerLatestWrites, RefusalsChangeNothing};
ghost use Rattle.rules.specs.Printed.{ListingsPrintLatestWrites};

// Every word answered to an accepted read, a device's too, is that of the latest accepted write before it to its
// physical word, failing one the memory's word at set-up; every accepted reference has a physical word.
pub fn reads_answer_the_latest_write()
    ensures { ReadsAnswerLatestWrites }
{}

// No two V-lines of a processor hold one block; each filled V-line is child of the entry at its R-place and of no
// other; every child is a filled V-line.
pub fn caches_point_at_each_other()
    ensures { CachesPointAtEachOther }
{}

// A block modified in one processor is held by no other.
pub fn modified_blocks_are_held_once()
    ensures { ModifiedBlocksHeldOnce }
{}

// For each processor, blocks fetched = resident + replaced + invalidated, and fetched is the number of its read-miss and
// read-modify-write messages that answers hold.
pub fn fetched_blocks_are_accounted_for()
    ensures { FetchedBlocksAccounted }
{}

// All of these of every run at once.
pub fn laws_hold_of_every_run()
    ensures { LawsOfRuns }
{}

// A refused call leaves the whole board as it was.
pub fn refused_calls_change_nothing()
    ensures { RefusalsChangeNothing }
{}

// In every listing the word printed for each accepted read, a device read's first, is that of the latest accepted write
// record before it to its physical word, else 0.
pub fn listings_print_the_latest_writes()
    ensures { ListingsPrintLatestWrites }
{}

// The worked example of docs/RULES.md is what the rules give, to the byte.
pub fn worked_example_is_listed()
    ensures { WorkedExample }
{}

// A run that has a hit, synonyms in the same set and in another, an invalidation, a supply by another processor, a
// write-back, a swapped line whose tag fits, and transfers.
pub fn every_case_occurs_in_a_run()
    ensures { Exhibited }
{}
