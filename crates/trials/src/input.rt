// Packed cases read from an input: numbers, and parts whose length a number says.
ghost use Rattle.std.specs.Prelude.{◌≡◌, ◌%◌, ◌<◌, ◌≤◌, length, IfOk, OnErr};
ghost use Rattle.trials.specs.Values.{big_endian};

use std::io;
use std::io::Read;

// The bytes of a number.
const NUMBER: usize = 4;

// The number behind the last case, and where the input ends or stops within a number.
// Stays: it stands in the packed inputs, so it is a number; `read_count` tells of it by an Option.
pub const END: u64 = 0xFFFFFFFF;

// 2^56: a number below it has room for one more byte.
const TOP: u64 = 72057594037927936;

// The number of these bytes, the high one first; its low 64 bits if they are more than eight.
pub fn value(bytes: &[u8]) -> u64
    ensures { result ≡ big_endian bytes.now % 18446744073709551616 }
{
    let mut n = 0;
    for byte in bytes {
        n = n % TOP * 256 + u64::from(*byte);
    }
    n
}

// Reads until the buffer is full or the input ends, and gives how many bytes came.
fn read_full<R: Read>(input: &mut R, bytes: &mut [u8]) -> io::Result<usize>
    ensures ok { IfOk result (λ n. n ≤ length bytes.new) }

    // The error is the input's. What came before it may stand in the buffer.
    ensures err { OnErr result (length bytes.new ≡ length bytes.old) }
{
    let mut done = 0;
    while done < bytes.len() {
        let n = input.read(&mut bytes[done..])?;
        if n == 0 {
            break;
        }
        done += n;
    }
    Ok(done)
}

// The next number of the input, or END.
pub fn read_number<R: Read>(input: &mut R) -> io::Result<u64> {
    let mut bytes = [0u8; NUMBER];
    let n = read_full(input, &mut bytes)?;
    if n < NUMBER {
        return Ok(END);
    }
    Ok(value(&bytes))
}

// The next number of the input, if it is not END.
pub fn read_count<R: Read>(input: &mut R) -> io::Result<Option<u64>> {
    let n = read_number(input)?;
    Ok(if n == END { None } else { Some(n) })
}

// Reads so many bytes, where there is room for them, and gives how many came.
pub fn read_part<R: Read>(input: &mut R, size: u64, bytes: &mut [u8]) -> io::Result<usize>
    ensures ok { IfOk result (λ n. n ≤ length bytes.new) }

    // The error is the input's. What came before it may stand in the buffer.
    ensures err { OnErr result (length bytes.new ≡ length bytes.old) }
{
    let n = size as usize;
    if bytes.len() < n {
        return Ok(0);
    }
    read_full(input, &mut bytes[0..n])
}
