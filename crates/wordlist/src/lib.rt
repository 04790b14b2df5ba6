// The list of reserved words, and a word as two numbers, so that words are compared by their numbers.
#![tactic(auto)]

mod list;
mod packing;

ghost use Rattle.std.specs.Prelude.{◌≡◌, [], get_or};
ghost use Rattle.wordlist.specs.Filled.{pack_of};
ghost use Rattle.wordlist.specs.Words.{reserved};

use packing::number;

// Sixteen bytes as two numbers, of which the lowest byte comes first.
#[derive(Clone, Copy, Debug, PartialEq, Eq)]
pub struct Packed {
    pub first: u64,
    pub rest: u64,
}

// How many reserved words there are.
pub const COUNT: usize = list::COUNT;

// The reserved word at a place of the list, filled up with blanks; past the last one, blanks.
pub fn listed(place: usize) -> Packed
    ensures { result ≡ pack_of (get_or reserved place []) }
{
    let word = list::words().get(place).copied().unwrap_or(list::BLANKS);
    pack_word(&word)
}

// A text of up to sixteen bytes, filled up with blanks, or the first sixteen of a longer one.
pub fn pack_word(w: &[u8]) -> Packed
    ensures { result ≡ pack_of w.now }
{
    match w.split_first_chunk() {
        Some((first, rest)) => Packed {
            first: u64::from_le_bytes(*first),
            rest: number(rest),
        },
        None => Packed {
            first: number(w),
            rest: number(&[]),
        },
    }
}
