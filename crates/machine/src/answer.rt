// What accepted calls answer.
ghost use Rattle.std.specs.Prelude.{◌≡◌, [], ◌∷◌};
ghost use Rattle.machine.specs.Answers.{sent_list};
ghost use Rattle.rules.specs.Listing.{word_at};

use lines::line::Level;
use tables::message::Message;

// The messages of a reference, a write-back first.
#[derive(Clone, Copy, Debug, PartialEq, Eq)]
pub enum Sent {
    Nothing,
    One(Message),
    Two(Message, Message),
}

impl Sent {
    // The message words, 0 after the last.
    pub fn words(self) -> [u32; 2]
        ensures { result ≡ word_at (sent_list self) 0 ∷ word_at (sent_list self) 1 ∷ [] }
    {
        match self {
            Sent::Nothing => [0, 0],
            Sent::One(message) => [message.word(), 0],
            Sent::Two(first, second) => [first.word(), second.word()],
        }
    }
}

// An accepted read or write: the level at which the word was found, the word read (0 for a write), the messages.
#[derive(Clone, Copy)]
pub struct Access {
    pub level: Level,
    pub word: u32,
    pub sent: Sent,
}
