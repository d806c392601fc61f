// The right of the device to move blocks on one machine's bus, from take to release.
ghost use Rattle.std.specs.Prelude.{◌≡◌, false};

// `live` stands until the machine has taken it back: docs/DECISIONS.md fixes that a contract of `drop` keeps a holder from
// ending with it.
pub struct Tenure {
    pub(crate) machine: u8,
    pub(crate) live: bool,
}

impl Drop for Tenure {
    // Only a tenure that was released can be let go.
    fn drop(self)
        requires released_first { self.live ≡ false }
    {
        let Tenure {
            machine: _,
            live: _,
        } = self;
    }
}

impl Tenure {
    // The number of the machine that it was taken from.
    pub fn machine(&self) -> u8
        ensures { result ≡ self.now.machine }
    {
        self.machine
    }
}
