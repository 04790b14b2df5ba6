// Runs the specimens that document 01 marks Run, whose sources it makes: 32 and 33 parentheses, 16 and 17 conditions,
// 255 and 256 rules, 65,536 and 65,537 bytes, and a table one row short. Each is read and compared with its whole table,
// and read again with tables too small, just large enough, and none. It takes no input. It prints for each pair how many
// agreed, and then the lines of all; a difference stands above the line of its pair.
#![tactic(auto)]

mod list;
mod sources;
mod tables;

ghost use Rattle.std.specs.Prelude.{◌<◌};

use list::{PAIRS, listed, specimen_of};
use rows::columns::ROW;
use specimen::counts::Counts;
use std::io;

// More bytes than the longest source that is made.
const LONGEST: usize = 65538;

// More numbers than the largest table that is made.
const LARGEST: usize = 520 * ROW;

// Makes and runs specimen k of the list, and counts it.
fn run_made(rt: &impl Print, k: usize, counts: Counts) -> io::Result<Counts> {
    let mut src = [0u8; LONGEST];
    let mut cells = [0u64; LARGEST];
    let made = listed(k);
    let n = sources::put_source(made.kind, made.size, &mut src).unwrap_or(0);
    tables::put_rows(made.kind, made.size, &mut cells);
    let s = specimen_of(k, made);
    let ran = specimen::run(rt, s, &src[0..n], &cells)?;
    Ok(counts.with(s.expected.number, ran))
}

// Runs both of a pair, and prints their line.
fn run_pair(rt: &impl Print, pair: usize, name: &str, counts: Counts) -> io::Result<Counts>
    requires { pair < 5 }
{
    let first = run_made(rt, 2 * pair, counts.start_group())?;
    let second = run_made(rt, 2 * pair + 1, first)?;
    println!(rt; "{name}: {}", second.group)?;
    Ok(second)
}

fn main(rt: HostRuntime) -> io::Result<()> {
    let mut counts = Counts::default();
    for (pair, name) in PAIRS.iter().enumerate() {
        counts = run_pair(&rt, pair, name, counts)?;
    }
    print!(rt; "{counts}")
}
