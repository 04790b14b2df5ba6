// Runs the packed cases of reading on standard input: each is read and compared with its whole answer and table, and
// read again with tables too small, just large enough, and none. It prints for each group how many agreed, and then the
// lines of all; a difference stands above the line of its group.
//
// tools/pack packs the cases. The input is groups until it ends; every number has four bytes, the high one first.
//   a group  0 to 3    how many cases it has
//            4 to 7    the length of its name
//            8 on      the name, and then the cases
//   a case   0 to 3    its number
//            4 to 7    how many numbers are lent
//            8 to 11   the number that is expected: 0 if the source is accepted, and else the refusal's
//            12 to 15  the place, 16 to 19 the row count, and 20 to 23 the free count that are expected
//            24 to 27  the line, and 28 to 31 the column that are expected (W-201)
//            32 to 35  the length of the source
//            36 to 39  where a run of one byte starts in it, 40 to 43 how long it is, and 44 to 47 the byte
//            48 to 51  the length of the packed cells
//            52 on     the source without the run, and then the packed cells of the expected rows: for each cell one
//                      byte that says how many bytes its number has, 0 to 8, and then these bytes, the high one first
#![tactic(auto)]

mod packed;

use packed::Group;
use specimen::NUMBERS;
use specimen::counts::Counts;
use std::io;
use std::io::Read;
use trials::input::read_part;

// The longest source that is run, in bytes.
const LONGEST: usize = 135168;

// The longest name of a group.
const NAME: usize = 64;

// More groups than any input has.
const GROUPS: usize = 256;

// Runs the next case, and counts it.
fn run_case<R: Read>(rt: &impl Print, input: &mut R, counts: Counts) -> io::Result<Counts> {
    let mut src = [0u8; LONGEST];
    let mut cells = [0u64; NUMBERS];
    let case = packed::read_case(input)?;
    let n = packed::read_source(input, case, &mut src)?;
    packed::read_cells(input, case, &mut cells)?;
    let s = case.specimen;
    let ran = specimen::run(rt, s, &src[0..n], &cells)?;
    Ok(counts.with(s.expected.number, ran))
}

fn run_cases<R: Read>(
    rt: &impl Print,
    input: &mut R,
    count: u64,
    counts: Counts,
) -> io::Result<Counts> {
    let mut after = counts;
    for _ in 0..count {
        after = run_case(rt, input, after)?;
    }
    Ok(after)
}

// Runs a group, and prints its line.
fn run_group<R: Read>(
    rt: &impl Print,
    input: &mut R,
    group: Group,
    counts: Counts,
) -> io::Result<Counts> {
    let mut name = [0u8; NAME];
    let n = read_part(input, group.name, &mut name)?;
    let after = run_cases(rt, input, group.cases, counts.start_group())?;
    rt.write_all(&name[0..n])?;
    println!(rt; ": {}", after.group)?;
    Ok(after)
}

fn run_groups<R: Read>(rt: &impl Print, input: &mut R) -> io::Result<Counts> {
    let mut counts = Counts::default();
    for _ in 0..GROUPS {
        let Some(group) = packed::read_group(input)? else {
            return Ok(counts);
        };
        counts = run_group(rt, input, group, counts)?;
    }
    Ok(counts)
}

fn main(rt: HostRuntime) -> io::Result<()> {
    let mut input = rt.stdin();
    let counts = run_groups(&rt, &mut input)?;
    print!(rt; "{counts}")
}
