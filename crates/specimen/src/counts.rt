// How many specimens agreed: in a group and in all, run again with other tables, and for each refusal number.
use crate::Ran;
use std::fmt;
use std::fmt::Display;
use trials::tally::Tally;

// The refusal numbers, and 0.
const NUMBERS: usize = 17;

// Of the group that is run, of all groups, and how many that agreed met each number.
#[derive(Clone, Copy, Debug, Default, PartialEq, Eq)]
pub struct Counts {
    pub group: Tally,
    pub all: Ran,
    pub met: [u64; NUMBERS],
}

impl Counts {
    // The same, before the first specimen of a group.
    pub fn start_group(self) -> Counts {
        Counts {
            group: Tally::default(),
            ..self
        }
    }

    // With a specimen of which this number is expected: if it agreed, the number is met once more.
    pub fn with(self, number: u64, ran: Ran) -> Counts {
        let mut met = self.met;
        if let Some(count) = met.get_mut(number as usize) {
            *count = count.wrapping_add(ran.first.agreed);
        }
        Counts {
            group: self.group + ran.first,
            all: self.all + ran,
            met,
        }
    }
}

// The lines of all groups together.
impl Display for Counts {
    fn fmt<W: fmt::Write>(&self, f: &mut fmt::Formatter<W>) -> fmt::Result {
        let all = self.all;
        writeln!(f, "again, one row short: {}", all.short)?;
        writeln!(f, "again, rows just enough: {}", all.enough)?;
        writeln!(f, "again, no table: {}", all.bare)?;
        for (number, count) in self.met.iter().enumerate().skip(1) {
            if *count != 0 {
                writeln!(f, "refusal {number} met by {count}")?;
            }
        }
        let total = (all.first + all.short) + (all.enough + all.bare);
        writeln!(f, "total: {total}")
    }
}
