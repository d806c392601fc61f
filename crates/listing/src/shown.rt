ghost use Rattle.std.specs.Prelude.{◌≡◌};
ghost use Rattle.machine.specs.Answers.{access_answer};

use lines::line::Level;
use machine::answer::Access;

// What a line shows of an accepted record.
#[derive(Clone, Copy)]
pub struct Shown {
    pub level: Level,
    pub word: u32,
    pub messages: [u32; 2],
}

impl From<Access> for Shown {
    ghost use Rattle.listing.specs.Played.{shown_of};

    ghost from_gives = { λ access r. r ≡ shown_of (access_answer access) };

    fn from(access: Access) -> Shown {
        Shown {
            level: access.level,
            word: access.word,
            messages: access.sent.words(),
        }
    }
}
