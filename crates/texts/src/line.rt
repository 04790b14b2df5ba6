// The line that the program `resolve` prints of a refusal.
ghost use Rattle.std.specs.Prelude.{◌≤◌, length, take, IfSome};
ghost use Rattle.trials.specs.Puts.{place_or_zero};
ghost use Rattle.texts.specs.Line.{PutsDecimal, Line};

use itoa::Buffer;
use trials::put::put;

// As many bytes as the longest line has, and some more.
pub const LINE: usize = 64;

// Writes the decimal digits of a number at a place, where they fit, and gives the place behind them.
fn put_decimal(line: &mut [u8], at: usize, n: u64) -> Option<usize>
    ensures { PutsDecimal line.old at n line.new (place_or_zero result) }
{
    let mut digits = Buffer::new();
    put(line, at, digits.format(n).as_bytes())
}

// Writes the line, where there is room, and gives its length.
pub fn put_refusal(line: &mut [u8], number: u64, place: u64) -> Option<usize>
    ensures upper_bound { IfSome result (λ n. n ≤ length line.new) }
    ensures line { 64 ≤ length line.old → Line number place (take (place_or_zero result) line.new) }
{
    let word = put(line, 0, b"refused ")?;
    let number_end = put_decimal(line, word, number)?;
    let preposition = put(line, number_end, b" at ")?;
    let place_end = put_decimal(line, preposition, place)?;
    put(line, place_end, b"\n")
}
