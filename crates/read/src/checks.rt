// Stages 1 to 5 with 16, which the quick check and reading share.
ghost use Rattle.std.specs.Prelude.{◌≡◌};
ghost use Rattle.lex.specs.Tokens.{first_bad};
ghost use Rattle.read.specs.Surveyed.{unless_bad, Surveyed};

use crate::refuse;
use elements::noted::Noted;
use refusals::Reason;
use walk::Fault;

// The longest source.
const LONGEST: usize = 65536;

// The fault of a walk, unless a token is bad. An accepted walk has met every token, so that none of them is bad.
fn unless_bad(src: &[u8], fault: Fault) -> Fault
    ensures { result ≡ unless_bad (first_bad src.now) fault }
{
    match lex::first_bad(src) {
        Some(place) => Fault {
            reason: Reason::BadToken,
            place,
        },
        None => fault,
    }
}

// The refusal, with the table all zeros; or the rows needed and the draft rows in the table, as far as whole rows fit.
pub fn survey(src: &[u8], table: &mut [u64]) -> Result<usize, Fault>
    ensures { Surveyed src.now result table.old table.new }
{
    if LONGEST < src.len() {
        return refuse(table, Reason::SourceTooLong, 0);
    }
    let walked = match walk::walk(src, table) {
        Ok(walked) => walked,
        Err(fault) => return Err(unless_bad(src, fault)),
    };
    let Noted { second, outside } = walked.noted;
    if let Some(word) = second {
        return refuse(table, Reason::SecondWord, word);
    }
    if let Some(number) = outside {
        return refuse(table, Reason::OutOfRange, number);
    }
    Ok(walked.rows)
}
