// The interface for C: the quick check, reading, reading a family, resolving, showing and the token reader, on slices and
// numbers. A slice passes as a pointer and a length. Every number of a lent answer or token is written.
#![tactic(auto)]

ghost use Rattle.std.specs.Prelude.{◌≡◌, length};
ghost use Rattle.answers.specs.WholeAnswer.{quick_check, read_table};
ghost use Rattle.answers.specs.Resolution.{resolved_table, resolved_output};
ghost use Rattle.replies.specs.Replies.{read_reply, resolve_reply};
ghost use Rattle.family.specs.Family.{family_reply, family_table, family_answers};
ghost use Rattle.lent.specs.Numbers.{in_lent, reply_numbers};
ghost use Rattle.show.specs.Show.{show_reply, show_table, show_output};
ghost use Rattle.viewer.specs.Viewed.{seen_from};
ghost use Rattle.face.specs.Numbers.{is_last, token_numbers};

use lent::{put_answer, put_numbers};
use lexemes::classes::BAD;

// Stages 1 to 5 alone: the refusal's number times 2^32 plus its place, or 0.
#[unsafe(no_mangle)]
pub extern "C" fn vfr_quick_check(src: &[u8]) -> u64
    ensures { result ≡ quick_check src.now }
{
    read::quick_check(src)
}

// Reads a source into a table.
#[unsafe(no_mangle)]
pub extern "C" fn vfr_read(src: &[u8], table: &mut [u64], answer: &mut [u64])
    ensures table_after { table.new ≡ read_table src.now (length table.old) }
    ensures answer_after { answer.new ≡ in_lent (length answer.old) (reply_numbers (read_reply src.now (length table.old))) }
{
    let a = read::read(src, table);
    put_answer(answer, &a);
}

// Reads the sources of a family, joined in one buffer and parted by their ends, into one table, with an answer for each.
#[unsafe(no_mangle)]
pub extern "C" fn vfr_read_family(
    buffer: &[u8],
    ends: &[u64],
    table: &mut [u64],
    answers: &mut [u64],
    answer: &mut [u64],
)
    ensures table_after { table.new ≡ family_table buffer.now ends.now (length table.old) (length answers.old) }
    ensures answers_after { answers.new
        ≡ family_answers buffer.now ends.now (length table.old) (length answers.old) }
    ensures answer_after { answer.new
        ≡ in_lent (length answer.old)
        (reply_numbers (family_reply buffer.now ends.now (length table.old) (length answers.old))) }
{
    let whole = family::read_family(buffer, ends, table, answers);
    put_answer(answer, &whole);
}

// Reads a source into a table and prints its resolved text into an output.
#[unsafe(no_mangle)]
pub extern "C" fn vfr_resolve(src: &[u8], table: &mut [u64], out: &mut [u8], answer: &mut [u64])
    ensures table_after { table.new ≡ resolved_table src.now (length table.old) (length out.old) }
    ensures out_after { out.new ≡ resolved_output src.now (length table.old) (length out.old) }
    ensures answer_after { answer.new ≡ in_lent (length answer.old) (reply_numbers (resolve_reply src.now (length table.old) (length out.old))) }
{
    let a = text::resolve(src, table, out);
    put_answer(answer, &a);
}

// Reads a source into a table, and says by answers which items are hidden or grey.
#[unsafe(no_mangle)]
pub extern "C" fn vfr_show(
    src: &[u8],
    answers: &[u64],
    table: &mut [u64],
    out: &mut [u8],
    answer: &mut [u64],
)
    ensures table_after { table.new ≡ show_table src.now answers.now (length table.old) (length out.old) }
    ensures out_after { out.new ≡ show_output src.now answers.now (length table.old) (length out.old) }
    ensures answer_after { answer.new
        ≡ in_lent (length answer.old)
        (reply_numbers (show_reply src.now answers.now (length table.old) (length out.old))) }
{
    let a = show::show(src, answers, table, out);
    put_answer(answer, &a);
}

// 1 where no further token comes: at a bad token and at the end.
fn is_last(class: u8) -> u64
    ensures { result ≡ is_last class }
{
    u64::from(class >= BAD)
}

// The token that stands first from the place `at` on, where `at` has that line and column, and the place at which to go on.
#[unsafe(no_mangle)]
pub extern "C" fn vfr_token(src: &[u8], at: usize, line: usize, column: usize, token: &mut [u64])
    ensures { token.new ≡ in_lent (length token.old) (token_numbers (seen_from src.now at line column)) }
{
    let seen = viewer::view(src, at, line, column);
    let t = seen.token.token;
    put_numbers(
        token,
        &[
            t.class as u64,
            t.start as u64,
            t.end as u64,
            seen.token.line as u64,
            seen.token.column as u64,
            seen.at as u64,
            is_last(t.class),
        ],
    );
}
