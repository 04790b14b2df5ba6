// How many agreed, of how many.
ghost use Rattle.std.specs.Prelude.{◌≡◌, ◌+◌, ◌%◌, ◌^◌, if◌then◌else◌};

use std::fmt;
use std::fmt::Display;
use std::ops::Add;

// How many agreed, and how many there are.
#[derive(Clone, Copy, Debug, Default, PartialEq, Eq)]
pub struct Tally {
    pub agreed: u64,
    pub all: u64,
}

impl Tally {
    // The tally of one, which agreed or not.
    pub fn one(agreed: bool) -> Tally
        ensures { (result.agreed ≡ (if agreed then 1 else 0)) × (result.all ≡ 1) }
    {
        Tally {
            agreed: u64::from(agreed),
            all: 1,
        }
    }
}

// The sums keep their low 64 bits.
impl Add for Tally {
    type Output = Tally;

    ghost add_gives = { λ a b c. (c.agreed ≡ (a.agreed + b.agreed) % 2 ^ 64) × (c.all ≡ (a.all + b.all) % 2 ^ 64) };

    fn add(self, other: Tally) -> Tally {
        Tally {
            agreed: self.agreed.wrapping_add(other.agreed),
            all: self.all.wrapping_add(other.all),
        }
    }
}

impl Display for Tally {
    fn fmt<W: fmt::Write>(&self, f: &mut fmt::Formatter<W>) -> fmt::Result {
        write!(f, "{} of {}", self.agreed, self.all)
    }
}
