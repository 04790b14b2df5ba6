// Reading groups and cases from an input.
ghost use Rattle.std.specs.Prelude.{◌≡◌, ◌≤◌, length, replicate, IfOk, OnErr};
ghost use Rattle.trials.specs.Puts.{Puts, place_or_zero};
ghost use Rattle.readings.specs.Packed.{unpacked};

use specimen::{Expected, Specimen};
use std::io;
use std::io::Read;
use trials::input::{read_count, read_number, read_part, value};

// How many cases a group has, and the length of its name.
#[derive(Clone, Copy, Debug, PartialEq, Eq)]
pub struct Group {
    pub cases: u64,
    pub name: u64,
}

// A case up to its source: what is expected, the length of the source, the start, length and byte of the run in it, and
// the length of the packed cells.
#[derive(Clone, Copy, Debug, PartialEq, Eq)]
pub struct Case {
    pub specimen: Specimen,
    pub length: u64,
    pub run_start: u64,
    pub run_length: u64,
    pub run_byte: u64,
    pub cells: u64,
}

// The longest packed cells of a case.
const PACKED: usize = 65536;

// The next group, if there is one.
pub fn read_group<R: Read>(input: &mut R) -> io::Result<Option<Group>> {
    let Some(cases) = read_count(input)? else {
        return Ok(None);
    };
    let name = read_number(input)?;
    Ok(Some(Group { cases, name }))
}

fn read_expected<R: Read>(input: &mut R) -> io::Result<Expected> {
    Ok(Expected {
        number: read_number(input)?,
        place: read_number(input)?,
        rows: read_number(input)?,
        free: read_number(input)?,
        line: read_number(input)?,
        column: read_number(input)?,
    })
}

fn read_specimen<R: Read>(input: &mut R) -> io::Result<Specimen> {
    Ok(Specimen {
        id: read_number(input)?,
        lent: read_number(input)? as usize,
        expected: read_expected(input)?,
    })
}

pub fn read_case<R: Read>(input: &mut R) -> io::Result<Case> {
    Ok(Case {
        specimen: read_specimen(input)?,
        length: read_number(input)?,
        run_start: read_number(input)?,
        run_length: read_number(input)?,
        run_byte: read_number(input)?,
        cells: read_number(input)?,
    })
}

// Writes a run of one byte at a place, where it fits, and gives the place behind it.
fn put_run(src: &mut [u8], at: usize, size: usize, byte: u8) -> Option<usize>
    ensures { Puts src.old at (replicate size byte) src.new (place_or_zero result) }
{
    let end = at.checked_add(size)?;
    if src.len() < end {
        return None;
    }
    src[at..end].fill(byte);
    Some(end)
}

// Reads what is left of a source so long, and gives where it ends.
fn read_rest<R: Read>(input: &mut R, src: &mut [u8], at: usize, size: usize) -> io::Result<usize>
    ensures ok { IfOk result (λ end. end ≤ length src.new) }

    // The error is the input's. What came before it may stand in the buffer.
    ensures err { OnErr result (length src.new ≡ length src.old) }
{
    if src.len() < size || size < at {
        return Ok(0);
    }
    let n = read_part(input, (size - at) as u64, &mut src[at..size])?;
    Ok(at + n)
}

// Reads a case's source, its run put in, and gives its length. Behind a run that does not fit it is read from the start.
pub fn read_source<R: Read>(input: &mut R, case: Case, src: &mut [u8]) -> io::Result<usize>
    ensures ok { IfOk result (λ end. end ≤ length src.new) }

    // The error is the input's. What came before it may stand in the buffer.
    ensures err { OnErr result (length src.new ≡ length src.old) }
{
    let start = read_part(input, case.run_start, src)?;
    let byte = (case.run_byte % 256) as u8;
    let end = put_run(src, start, case.run_length as usize, byte);
    read_rest(input, src, end.unwrap_or(0), case.length as usize)
}

// Unpacks cells, as far as there are any.
fn unpack(packed: &[u8], cells: &mut [u64])
    ensures { cells.new ≡ unpacked packed.now cells.old }
{
    let mut at = 0;
    for cell in cells.iter_mut() {
        if packed.len() <= at {
            return;
        }
        let size = usize::from(packed[at]);
        let start = at + 1;
        if packed.len() - start < size {
            return;
        }
        let end = start + size;
        *cell = value(&packed[start..end]);
        at = end;
    }
}

// Reads a case's expected cells.
pub fn read_cells<R: Read>(input: &mut R, case: Case, cells: &mut [u64]) -> io::Result<()> {
    let mut packed = [0u8; PACKED];
    let n = read_part(input, case.cells, &mut packed)?;
    unpack(&packed[0..n], cells);
    Ok(())
}
