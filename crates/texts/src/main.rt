// Resolves the packed cases on standard input, and compares what the program `resolve` prints of each, byte for byte,
// with what is expected; past a text and on refusal all that was lent must be zeros. It prints the index of each case
// that differs, and how many agree, are resolved and are refused.
//
// tools/pack packs the cases. Every number has four bytes, the high one first.
//   a case   0 to 3  the length of the source, or 0xFFFFFFFF behind the last case
//            4 to 7  the length of the expected output
//            8 on    the source, and then the expected output
#![tactic(auto)]

mod compare;
mod counts;
mod line;

ghost use Rattle.std.specs.Prelude.{◌≡◌, true, length};
ghost use Rattle.answers.specs.Resolution.{resolved_output};
ghost use Rattle.replies.specs.Replies.{resolve_reply};
ghost use Rattle.text.specs.Answers.{told};
ghost use Rattle.texts.specs.Agreement.{Agreed};

use compare::agrees;
use counts::Counts;
use rows::columns::ROW;
use std::io;
use std::io::Read;
use text::{Refusal, Resolved};
use trials::fill::{UNCLEARED_BYTE, UNCLEARED_NUMBER};
use trials::input::{read_count, read_number, read_part};

// The longest source, some bytes over what document 01 allows.
const SOURCE: usize = 66048;

// The longest expected output.
const EXPECTED: usize = 32768;

// The output that is lent.
const OUTPUT: usize = 65536;

// The table that is lent.
const TABLE: usize = 512 * ROW;

// More cases than any input has.
const CASES: u64 = 65536;

// How a case went.
#[derive(Clone, Copy, Debug, PartialEq, Eq)]
pub struct Ran {
    pub agreed: bool,
    pub resolved: bool,
}

// Resolves a source through a table and into an output that hold marks.
fn resolve_marked(src: &[u8], table: &mut [u64], out: &mut [u8]) -> Result<Resolved, Refusal>
    ensures result_value { told result ≡ resolve_reply src.now (length table.old) (length out.old) }
    ensures out_after { out.new ≡ resolved_output src.now (length table.old) (length out.old) }
{
    table.fill(UNCLEARED_NUMBER);
    out.fill(UNCLEARED_BYTE);
    text::resolve(src, table, out)
}

// Resolves a source, and compares.
fn run_in(table: &mut [u64], out: &mut [u8], src: &[u8], expected: &[u8]) -> Ran
    ensures { result.agreed ≡ true → Agreed src.now (length table.old) (length out.old) expected.now }
{
    let answer = resolve_marked(src, table, out);
    let agreed = agrees(answer, table, out, expected);
    Ran {
        agreed,
        resolved: answer.is_ok(),
    }
}

fn run(src: &[u8], expected: &[u8]) -> Ran {
    let mut table = [0u64; TABLE];
    let mut out = [0u8; OUTPUT];
    run_in(&mut table, &mut out, src, expected)
}

// Runs the case whose source has so many bytes.
fn run_case<R: Read>(input: &mut R, size: u64) -> io::Result<Ran> {
    let mut src = [0u8; SOURCE];
    let mut expected = [0u8; EXPECTED];
    let expected_size = read_number(input)?;
    let n = read_part(input, size, &mut src)?;
    let m = read_part(input, expected_size, &mut expected)?;
    Ok(run(&src[0..n], &expected[0..m]))
}

// Runs all cases; the index of one that differs is printed.
fn run_cases<R: Read>(rt: &impl Print, input: &mut R) -> io::Result<Counts> {
    let mut counts = Counts::default();
    for k in 0..CASES {
        let Some(size) = read_count(input)? else {
            return Ok(counts);
        };
        let ran = run_case(input, size)?;
        if !ran.agreed {
            println!(rt; "case {k} differs")?;
        }
        counts = counts.with(ran);
    }
    Ok(counts)
}

fn main(rt: HostRuntime) -> io::Result<()> {
    let mut input = rt.stdin();
    let counts = run_cases(&rt, &mut input)?;
    print!(rt; "{counts}")
}
