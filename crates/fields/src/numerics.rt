// A numeric's size, and whether its numbers fit it (document 02, W-204); its step (W-208).
ghost use Rattle.std.specs.Prelude.{◌≡◌};
ghost use Rattle.rows.specs.Marks.{marked};
ghost use Rattle.grammar.specs.Source.{number_at};
ghost use Rattle.fields.specs.Phrases.{kept, marked_step};
ghost use Rattle.fields.specs.Sizes.{size_entry, oversized, first_oversized};

use crate::parts::{place_of, value};
use elements::KEPT;
use rows::displays::UNSIGNED_8;

// What an absent step is.
const ABSENT_STEP: u64 = 1;

// Column 12 of a numeric, from what its FL keeps: eight bytes and DISPLAY_UINT_DEC where it is absent.
#[tactic(auto, unfolding(crate::specs::Sizes::size_entry))]
pub fn size_and_display(entry: u64) -> u64
    ensures { result ≡ size_entry entry }
{
    let named = entry / 256;
    if named == 0 { UNSIGNED_8 } else { named }
}

// A numeric's step by its mark; a written 0 stays 0.
#[tactic(auto, unfolding(crate::specs::Phrases::marked_step, crate::specs::Phrases::marked_value))]
pub fn step(src: &[u8], mark: u64) -> u64
    ensures { result ≡ marked_step (number_at src.now) mark }
{
    if mark == 0 {
        ABSENT_STEP
    } else {
        value(src, mark)
    }
}

// There is a number at the mark, and it does not fit the size.
fn is_oversized(src: &[u8], size: u64, mark: u64) -> bool
    ensures { result ≡ oversized src.now size mark }
{
    let Some(at) = place_of(mark) else {
        return false;
    };
    !values::value_at(src, at).is_some_and(|n| sizes::fits(size, n))
}

// Of a numeric, the place of the first of minimum, maximum, step and default that does not fit its size.
// Kept: HEAD, flags, minimum, maximum, step, default.
pub fn first_oversized(src: &[u8], k: [u64; KEPT]) -> Option<usize>
    ensures { marked result ≡ first_oversized src.now (kept k) }
{
    let size = size_and_display(k[4]) / 4;
    for &mark in &[k[5], k[6], k[7], k[8]] {
        if is_oversized(src, size, mark) {
            return place_of(mark);
        }
    }
    None
}
