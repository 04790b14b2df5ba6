// Reads a source from standard input, and prints its resolved text or a line that tells the refusal.
#![tactic(auto)]

use lent::Numbers;
use rows::columns::ROW;
use std::io;
use trials::input::read_part;

// One more than the longest source has.
const INPUT: usize = 65537;

// 512 rows.
const TABLE: usize = 512 * ROW;

const OUTPUT: usize = 65536;

fn main(rt: HostRuntime) -> io::Result<()> {
    let mut input = [0u8; INPUT];
    let n = read_part(&mut rt.stdin(), INPUT as u64, &mut input)?;
    let mut table = [0u64; TABLE];
    let mut out = [0u8; OUTPUT];
    match text::resolve(&input[..n], &mut table, &mut out) {
        Ok(resolved) => rt.write_all(out.get(..resolved.bytes).unwrap_or(&[])),
        Err(refusal) => {
            let [number, place, ..] = refusal.numbers();
            println!(rt; "refused {number} at {place}")
        }
    }
}
