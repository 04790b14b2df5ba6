// Prints the tokens of the sources on standard input, one a line: its class, its start, its end, its line and its
// column (W-201). The class of a sign or a reserved word is printed as its own text. A line `----` parts two sources
// and is printed between their tokens too; the LF before it belongs to neither source.
#![tactic(auto)]

ghost use Rattle.std.specs.Prelude.{◌+◌, ◌≤◌, length, IfSome};

use lex::Token;
use lexemes::classes;
use std::io;
use trials::input::read_part;
use viewer::Positioned;

// The bytes of the input that are read.
const INPUT: usize = 65536;

// A line break, four `-` and a line break.
const SEPARATOR: &[u8] = b"\n----\n";

// The bytes from `start` to `end`, if there are any.
fn print_part(rt: &impl Print, src: &[u8], start: usize, end: usize) -> io::Result<()> {
    match src.get(start..end) {
        Some(part) => rt.write_all(part),
        None => Ok(()),
    }
}

fn print_class(rt: &impl Print, src: &[u8], token: Token) -> io::Result<()> {
    match token.class {
        classes::NAME => rt.print("NAME"),
        classes::HEX => rt.print("HEX"),
        classes::DECIMAL => rt.print("DECIMAL"),
        classes::BAD => rt.print("BAD"),
        classes::END => rt.print("END"),
        _ => print_part(rt, src, token.start, token.end),
    }
}

fn print_token(rt: &impl Print, src: &[u8], seen: Positioned) -> io::Result<()> {
    let Positioned {
        token,
        line,
        column,
    } = seen;
    print_class(rt, src, token)?;
    println!(rt; " {} {} {line} {column}", token.start, token.end)
}

// All tokens of a source, up to the end or the first bad one.
fn print_tokens(rt: &impl Print, src: &[u8]) -> io::Result<()> {
    let mut reader = viewer::new(src);
    loop {
        let seen = viewer::next(&mut reader);
        print_token(rt, src, seen)?;
        if classes::BAD <= seen.token.class {
            return Ok(());
        }
    }
}

// Where the first source ends, if a separator follows it.
fn source_end(src: &[u8]) -> Option<usize>
    ensures { IfSome result (λ end. end + 6 ≤ length src.now) }
{
    src.windows(SEPARATOR.len())
        .position(|part| part == SEPARATOR)
}

// The tokens of each source.
fn print_sources(rt: &impl Print, src: &[u8]) -> io::Result<()> {
    let mut rest = src;
    while let Some(end) = source_end(rest) {
        print_tokens(rt, &rest[..end])?;
        println!(rt; "----")?;
        rest = &rest[end + SEPARATOR.len()..];
    }
    print_tokens(rt, rest)
}

fn main(rt: HostRuntime) -> io::Result<()> {
    let mut input = [0u8; INPUT];
    let n = read_part(&mut rt.stdin(), INPUT as u64, &mut input)?;
    print_sources(&rt, &input[..n])
}
