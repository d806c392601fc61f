use replacement::first_in::FirstIn;
use replacement::least_recently_used::LeastRecentlyUsed;
use replacement::rule::Rule;
use std::process::Abort;

// The choices of the sets 0 to 15, where bit n of a set's number says whether way n is asked for.
type Choices = [u8; 16];

const LOWEST: Choices = [0, 0, 1, 0, 2, 0, 1, 0, 3, 0, 1, 0, 2, 0, 1, 0];

const HIGHEST: Choices = [0, 0, 1, 1, 2, 2, 2, 2, 3, 3, 3, 3, 3, 3, 3, 3];

const FROM_1: Choices = [0, 0, 1, 1, 2, 2, 1, 1, 3, 3, 1, 1, 2, 2, 1, 1];

const FROM_2: Choices = [0, 0, 1, 0, 2, 2, 2, 2, 3, 3, 3, 3, 2, 2, 2, 2];

const FROM_3: Choices = [0, 0, 1, 0, 2, 0, 1, 0, 3, 3, 3, 3, 3, 3, 3, 3];

fn check_choices<R: Rule>(rt: &impl Abort, rule: &R, word: u32, choices: Choices) {
    for (set, choice) in choices.iter().enumerate() {
        let asked = [set, set / 2, set / 4, set / 8].map(|rest| rest % 2 == 1);
        assert_eq!(rt; rule.choose(word, asked), *choice, "word {word}, set {set}");
    }
}

#[test]
fn least_recently_used_words(rt: HostRuntime) {
    let rule = LeastRecentlyUsed;
    assert_eq!(rt; rule.first_word(), 27);
    let cases = [
        (27, 0, 0b01_10_11_00),
        (27, 1, 0b00_10_11_01),
        (27, 2, 0b00_01_11_10),
        (27, 3, 27),
        (27, 4, 108),
        (27, 255, 27),
        (228, 3, 0b10_01_00_11),
        (0, 1, 1),
    ];
    for (word, way, next) in cases {
        assert_eq!(rt; rule.after_use(word, way), next);
        assert_eq!(rt; rule.after_load(word, way), next);
    }
}

#[test]
fn least_recently_used_choices(rt: HostRuntime) {
    let rule = LeastRecentlyUsed;
    check_choices(&rt, &rule, 27, LOWEST);
    check_choices(&rt, &rule, 228, HIGHEST);
    check_choices(&rt, &rule, 108, FROM_1);
    check_choices(&rt, &rule, 0, LOWEST);
}

#[test]
fn first_in_words(rt: HostRuntime) {
    let rule = FirstIn;
    assert_eq!(rt; rule.first_word(), 0);
    for word in [0, 1, 2, 3, 6, 4_294_967_295] {
        for (way, next) in [(0, 1), (1, 2), (2, 3), (3, 0), (4, 1), (255, 0)] {
            assert_eq!(rt; rule.after_use(word, way), word);
            assert_eq!(rt; rule.after_load(word, way), next);
        }
    }
}

#[test]
fn first_in_choices(rt: HostRuntime) {
    let rule = FirstIn;
    check_choices(&rt, &rule, 0, LOWEST);
    check_choices(&rt, &rule, 1, FROM_1);
    check_choices(&rt, &rule, 2, FROM_2);
    check_choices(&rt, &rule, 3, FROM_3);
    check_choices(&rt, &rule, 6, FROM_2);
}
