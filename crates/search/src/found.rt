// What a search answers.
ghost use Rattle.std.specs.Prelude.{◌≡◌};

// The best decisions so far, and their cost.
#[derive(Clone, Copy, Debug, PartialEq, Eq)]
pub(crate) struct Best {
    pub turned: u64,
    pub cost: u64,
}

impl Best {
    // As an answer, after so many nodes.
    pub(crate) fn found(&self, taken: u32) -> Found
        ensures { result
            ≡ record { turned = self.now.turned; cost = self.now.cost; taken = taken } }
    {
        Found {
            turned: self.turned,
            cost: self.cost,
            taken,
        }
    }
}

/// The decisions that cost least, their cost, and how many nodes were taken.
#[derive(Clone, Copy, Debug, PartialEq, Eq)]
pub struct Found {
    pub turned: u64,
    pub cost: u64,
    pub taken: u32,
}

/// Why there is no answer, with how many nodes were taken.
#[derive(Clone, Copy, Debug, PartialEq, Eq)]
pub enum SearchFault {
    /// The list was full.
    Full { taken: u32 },
    /// The budget was used up.
    Budget { taken: u32 },
}
