// The numbers of an answer in lent memory (document 02, W-201): as far as there is room, and 0 past them.
#![tactic(auto)]

ghost use Rattle.std.specs.Prelude.{◌≡◌, length};
ghost use Rattle.replies.specs.Replies.{Reply, answered};
ghost use Rattle.read.specs.Answers.{accepted_told, refusal_told};
ghost use Rattle.lent.specs.Numbers.{in_lent, reply_numbers};

use read::{Accepted, Refusal};
use refusals::Reason;

// What C is told in seven numbers.
pub trait Numbers {
    ghost told: { Self → Reply };

    fn numbers(&self) -> [u64; 7]
        ensures { result ≡ reply_numbers (told self.now) };
}

impl Numbers for Accepted {
    ghost told = { accepted_told };

    fn numbers(&self) -> [u64; 7] {
        [0, 0, self.rows as u64, self.free, 0, 0, 0]
    }
}

impl Numbers for Refusal {
    ghost told = { refusal_told };

    fn numbers(&self) -> [u64; 7] {
        match *self {
            Refusal::At {
                reason,
                place,
                line,
                column,
            } => {
                [
                    reason.into(),
                    place as u64,
                    0,
                    0,
                    line as u64,
                    column as u64,
                    0,
                ]
            }
            Refusal::TooFewRows(need) => [Reason::TooFewRows.into(), 0, need as u64, 0, 0, 0, 0],
        }
    }
}

impl<T: Numbers, E: Numbers> Numbers for Result<T, E> {
    ghost told = { answered T.told E.told };

    fn numbers(&self) -> [u64; 7] {
        match self {
            Ok(accepted) => accepted.numbers(),
            Err(refusal) => refusal.numbers(),
        }
    }
}

// The numbers as far as there is room, and 0 past them.
pub fn put_numbers(out: &mut [u64], numbers: &[u64])
    ensures { out.new ≡ in_lent (length out.old) numbers.now }
{
    let room = numbers.len().min(out.len());
    out[..room].copy_from_slice(&numbers[..room]);
    rows::clear(out, room);
}

// The numbers of an answer.
pub fn put_answer<A: Numbers>(out: &mut [u64], answer: &A)
    ensures { out.new ≡ in_lent (length out.old) (reply_numbers (A.told answer.now)) }
{
    put_numbers(out, &answer.numbers());
}
