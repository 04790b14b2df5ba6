// Comparing what resolving gives with what is expected.
ghost use Rattle.std.specs.Prelude.{◌≡◌, ◌↔◌, true, IsTrue, EachIndex, slice_index};
ghost use Rattle.texts.specs.Line.{Line};
ghost use Rattle.texts.specs.Agreement.{Text, Agrees};

use crate::line::{LINE, put_refusal};
use lent::Numbers;
use text::{Refusal, Resolved};

fn is_zeros(bytes: &[u8]) -> bool
    ensures { IsTrue result ↔ EachIndex bytes.now (λ k. slice_index bytes.now k ≡ 0) }
{
    bytes.iter().all(|byte| *byte == 0)
}

// Whether the output has the expected text, of so many bytes, and then zeros.
fn is_text(bytes: usize, out: &[u8], expected: &[u8]) -> bool
    ensures { result ≡ true → Text bytes out.now expected.now }
{
    if bytes != expected.len() || out.len() < bytes {
        return false;
    }
    let (text, rest) = out.split_at(bytes);
    text == expected && is_zeros(rest)
}

// Whether all that was lent is zeros.
fn is_cleared(table: &[u64], out: &[u8]) -> bool {
    table.iter().all(|number| *number == 0) && is_zeros(out)
}

// Whether the line of a refusal is the expected one.
fn is_line(number: u64, place: u64, expected: &[u8]) -> bool
    ensures { result ≡ true → Line number place expected.now }
{
    let mut bytes = [0u8; LINE];
    match put_refusal(&mut bytes, number, place) {
        Some(n) => &bytes[0..n] == expected,
        None => false,
    }
}

// Whether the line of a refusal is the expected one, and all that was lent is zeros.
fn is_refusal(number: u64, place: u64, table: &[u64], out: &[u8], expected: &[u8]) -> bool
    ensures { result ≡ true → Line number place expected.now }
{
    is_line(number, place, expected) & is_cleared(table, out)
}

// Whether the program `resolve` prints of this answer what is expected.
pub fn agrees(answer: Result<Resolved, Refusal>, table: &[u64], out: &[u8], expected: &[u8]) -> bool
    ensures { result ≡ true → Agrees answer out.now expected.now }
{
    match answer {
        Ok(resolved) => is_text(resolved.bytes, out, expected),
        Err(refusal) => {
            let [number, place, ..] = refusal.numbers();
            is_refusal(number, place, table, out, expected)
        }
    }
}
