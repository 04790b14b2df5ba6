// The row of the form set.
ghost use Rattle.std.specs.Prelude.{◌≡◌, ◌%◌};
ghost use Rattle.grammar.specs.Source.{number_at};
ghost use Rattle.answers.specs.Drafts.{encoded};
ghost use Rattle.fields.specs.Phrases.{kept, marked_value, high_of, low_of, form_set_draft};

use crate::parts::{plain_row, value, with_marks};
use elements::KEPT;
use rows::codes;
use rows::columns::{A, B, FIRST, ROW, SECOND};

// The lowest byte of the number at a mark.
fn byte(src: &[u8], mark: u64) -> u8
    ensures { result ≡ marked_value (number_at src.now) mark % 256 }
{
    (value(src, mark) % 256) as u8
}

// The eight bytes of a GUID, the first one highest.
fn guid_low(src: &[u8], k: [u64; KEPT]) -> u64
    ensures { result ≡ low_of (number_at src.now) (kept k) }
{
    u64::from_be_bytes([
        byte(src, k[0]),
        byte(src, k[1]),
        byte(src, k[2]),
        byte(src, k[3]),
        byte(src, k[4]),
        byte(src, k[5]),
        byte(src, k[6]),
        byte(src, k[7]),
    ])
}

// A GUID's first three parts, of 32, 16 and 16 bits, the first one highest.
fn guid_high(src: &[u8], k: [u64; KEPT]) -> u64
    ensures { result ≡ high_of (number_at src.now) (kept k) }
{
    value(src, k[0]) % 0x1_0000_0000 * 0x1_0000_0000
        + value(src, k[1]) % 0x1_0000 * 0x1_0000
        + value(src, k[2]) % 0x1_0000
}

// Kept at its opening: the GUID's first three parts; then its eight bytes, title and help.
pub fn form_set_row(src: &[u8], place: usize, high: [u64; KEPT], low: [u64; KEPT]) -> [u64; ROW]
    ensures { result ≡ encoded (form_set_draft (number_at src.now) place (kept high) (kept low)) }
{
    let mut r = plain_row(codes::FORM_SET, 0, place);
    r[FIRST] = value(src, low[8]);
    r[SECOND] = value(src, low[9]);
    r[A] = guid_high(src, high);
    r[B] = guid_low(src, low);
    with_marks(r, 0, 0, 0)
}
