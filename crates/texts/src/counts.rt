// How many cases agree, are resolved and are refused.
use crate::Ran;
use std::fmt;
use std::fmt::Display;
use trials::tally::Tally;

// Of all cases, those that agree and those that are resolved; the others are refused.
#[derive(Clone, Copy, Debug, Default, PartialEq, Eq)]
pub struct Counts {
    pub agreed: Tally,
    pub resolved: Tally,
}

impl Counts {
    // With one more case.
    pub fn with(self, ran: Ran) -> Counts {
        Counts {
            agreed: self.agreed + Tally::one(ran.agreed),
            resolved: self.resolved + Tally::one(ran.resolved),
        }
    }
}

impl Display for Counts {
    fn fmt<W: fmt::Write>(&self, f: &mut fmt::Formatter<W>) -> fmt::Result {
        let refused = self.resolved.all.wrapping_sub(self.resolved.agreed);
        writeln!(f, "{} agree", self.agreed)?;
        writeln!(f, "{} resolved, {refused} refused", self.resolved.agreed)
    }
}
