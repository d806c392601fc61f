use base::block::{PhysicalBlock, Words};
use base::fault::Fault;
use base::layer::Layer;
use memory::fault::MemoryFault;
use memory::memory::Memory;
use memory::pair::Pair;
use memory::word_memory::WordMemory;
use std::process::Abort;

// More words than the 512 blocks that a memory has at most.
const LENGTH: usize = 2060;

const OLD: u32 = 100;

const NEW: Words = [1, 2, 3, 4];

// Puts 100, 101, 102 and so on into the words.
fn fill(words: &mut [u32]) {
    for (word, next) in words.iter_mut().zip(OLD..) {
        *word = next;
    }
}

// The words are as `fill` left them but for the new four from a place on, if one is given.
fn check_words(rt: &impl Abort, words: &[u32], written: Option<u32>) {
    for (word, place) in words.iter().zip(0u32..) {
        let expected = match written {
            Some(from) if from <= place && place - from < 4 => place - from + 1,
            _ => place.wrapping_add(OLD),
        };
        assert_eq!(rt; *word, expected, "word {place}");
    }
}

fn check_read<M: Memory>(rt: &impl Abort, memory: &mut M, number: u16, words: Words) {
    assert_eq!(rt;
        memory.read(PhysicalBlock::from(number)),
        Ok(words),
        "block {number}"
    );
}

fn check_write<M: Memory>(rt: &impl Abort, memory: &mut M, number: u16, words: Words) {
    assert_eq!(rt;
        memory.write(PhysicalBlock::from(number), words),
        Ok(()),
        "block {number}"
    );
}

// Read and write refuse a block as outside.
fn check_refused<M: Memory>(rt: &impl Abort, memory: &mut M, number: u16) {
    let block = PhysicalBlock::from(number);
    let outside = MemoryFault::Outside { block };
    assert_eq!(rt; memory.read(block), Err(outside), "block {number}");
    assert_eq!(rt; memory.write(block, NEW), Err(outside), "block {number}");
    assert_eq!(rt; outside.number(), 12);
    assert_eq!(rt; outside.layer(), Layer::Memory);
    assert_eq!(rt; outside.place(), u32::from(number));
}

// There are so many blocks, the next is refused, and some hold the words given.
fn check_blocks<M: Memory>(rt: &impl Abort, memory: &mut M, count: u16, blocks: &[(u16, Words)]) {
    assert_eq!(rt; memory.count_blocks(), count);
    check_refused(rt, memory, count);
    for (number, words) in blocks {
        check_read(rt, memory, *number, *words);
    }
}

// A block that holds the old words is written, and another is refused.
fn check_block<M: Memory>(rt: &impl Abort, memory: &mut M, number: u16, old: Option<Words>) {
    match old {
        Some(words) => {
            check_read(rt, memory, number, words);
            check_write(rt, memory, number, NEW);
            check_read(rt, memory, number, NEW);
        }
        None => check_refused(rt, memory, number),
    }
}

// How many words there are and how many blocks they make, and a block with the words that it holds,
// if it is one of them.
type Case = (usize, u16, u16, Option<Words>);

fn check_case(rt: &impl Abort, words: &mut [u32], case: Case) {
    let (length, count, number, old) = case;
    assert!(rt; length <= words.len());
    let words = &mut words[0..length];
    fill(words);
    let mut memory = WordMemory::new(words);
    assert_eq!(rt;
        memory.count_blocks(),
        count,
        "block {number} of {length} words"
    );
    check_block(rt, &mut memory, number, old);
    let written = old.map(|_| 4 * u32::from(number));
    check_words(rt, memory.into_words(), written);
}

#[test]
fn words_as_memory(rt: HostRuntime) {
    let words: &mut [u32] = &mut [0; LENGTH];
    const CASES: [Case; 11] = [
        (0, 0, 0, None),
        (1, 0, 0, None),
        (7, 1, 0, Some([100, 101, 102, 103])),
        (7, 1, 1, None),
        (8, 2, 0, Some([100, 101, 102, 103])),
        (8, 2, 1, Some([104, 105, 106, 107])),
        (8, 2, 2, None),
        (LENGTH, 512, 0, Some([100, 101, 102, 103])),
        (LENGTH, 512, 511, Some([2144, 2145, 2146, 2147])),
        (LENGTH, 512, 512, None),
        (LENGTH, 512, 65_535, None),
    ];
    for case in CASES {
        check_case(&rt, words, case);
    }
}

fn check_pair<A: Memory + Drop, B: Memory + Drop>(
    rt: &impl Abort,
    even: A,
    odd: B,
    count: u16,
    blocks: &[(u16, Words)],
) {
    check_blocks(rt, &mut Pair::new(even, odd), count, blocks);
}

fn check_all(rt: &impl Abort, words: &[u32], expected: &[u32]) {
    assert_eq!(rt; words, expected);
}

#[test]
fn pair_takes_turns(rt: HostRuntime) {
    let even: &mut [u32] = &mut [0, 1, 2, 3, 4, 5, 6, 7];
    let odd: &mut [u32] = &mut [20, 21, 22, 23, 24, 25, 26, 27, 28, 29, 30, 31];
    let mut pair = Pair::new(WordMemory::new(even), WordMemory::new(odd));
    let blocks = [
        (0, [0, 1, 2, 3]),
        (1, [20, 21, 22, 23]),
        (2, [4, 5, 6, 7]),
        (3, [24, 25, 26, 27]),
    ];
    check_blocks(&rt, &mut pair, 4, &blocks);
    check_write(&rt, &mut pair, 1, NEW);
    check_write(&rt, &mut pair, 2, [5, 6, 7, 8]);
    let (even, odd) = pair.into_parts();
    check_all(&rt, even.into_words(), &[0, 1, 2, 3, 5, 6, 7, 8]);
    let odd_words = [1, 2, 3, 4, 24, 25, 26, 27, 28, 29, 30, 31];
    check_all(&rt, odd.into_words(), &odd_words);
}

#[test]
fn pair_of_pairs(rt: HostRuntime) {
    let (a, b, c, d) = (&mut [0; 4], &mut [1; 4], &mut [2; 4], &mut [3; 4]);
    let first = Pair::new(WordMemory::new(a), WordMemory::new(b));
    let second = Pair::new(WordMemory::new(c), WordMemory::new(d));
    let blocks = [(0, [0; 4]), (1, [2; 4]), (2, [1; 4]), (3, [3; 4])];
    check_pair(&rt, first, second, 4, &blocks);
}

#[test]
fn pair_has_most_blocks(rt: HostRuntime) {
    let (even, odd) = (&mut [0; 2048], &mut [1; 2048]);
    let blocks = [(510, [0; 4]), (511, [1; 4])];
    check_pair(
        &rt,
        WordMemory::new(even),
        WordMemory::new(odd),
        512,
        &blocks,
    );
}
