// What is counted of the records of a file, and of several files.
ghost use Rattle.std.specs.Prelude.{◌≡◌, ◌+◌, ◌<◌, ◌^◌};

use std::ops::Add;

// How many records were replayed, and of how many the answer differs from what was stored.
#[derive(Clone, Copy, PartialEq, Eq, Debug, Drop)]
pub struct Tally {
    pub records: u64,
    pub differ: u64,
}

impl Tally {
    ghost use Rattle.replay.specs.Tallies.{miss};

    // A constant under a name that says what it is: `Default` would be no plainer.
    pub const NONE: Tally = Tally {
        records: 0,
        differ: 0,
    };

    // One record more, and whether its answer is what was stored.
    pub fn count(&mut self, agrees: bool)
        requires { (self.old.records + 1 < 2 ^ 64) × (self.old.differ + 1 < 2 ^ 64) }
        ensures records { self.new.records ≡ self.old.records + 1 }
        ensures differ { self.new.differ ≡ self.old.differ + miss agrees }
    {
        self.records += 1;
        self.differ += u64::from(!agrees);
    }
}

// The sums wrap only past any file's records.
impl Add for Tally {
    ghost use Rattle.replay.specs.Tallies.{plus};

    type Output = Tally;

    ghost add_gives = { λ t u r. r ≡ plus t u };

    fn add(self, other: Tally) -> Tally {
        Tally {
            records: self.records.wrapping_add(other.records),
            differ: self.differ.wrapping_add(other.differ),
        }
    }
}
