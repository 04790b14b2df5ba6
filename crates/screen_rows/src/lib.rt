// Which items are hidden or grey (document 02, W-202), from the rows of a table: a byte a row, 1 for hidden plus 2 for
// grey, 0 for other rows. Two passes over the rows, total for every table.
#![tactic(auto)]

ghost use Rattle.std.specs.Prelude.{◌≡◌, ◌≤◌, length, take};
ghost use Rattle.expression_rows.specs.Ends.{value_after};
ghost use Rattle.screen.specs.Kinds.{is_item, hides, greys, is_true};
ghost use Rattle.screen_rows.specs.Passes.{own_flags, flags_in, all_flags, items_only, shown};

use evaluate::Known;
use expression_rows::value_after;
use operators::Scalar;
use rows::columns::{CODE, PARENT};
use rows::{cell, codes};

// ---- kinds of rows and values

// Whether a row of this code is an item that is no condition.
fn is_item(code: u64) -> bool
    ensures { result ≡ is_item code }
{
    matches!(
        code,
        codes::SUBTITLE
            | codes::TEXT
            | codes::LABEL
            | codes::GOTO
            | codes::CHECKBOX
            | codes::NUMERIC
            | codes::ONE_OF
    )
}

// Whether a row of this code is a condition that hides what stands in it when it is TRUE.
fn is_hiding(code: u64) -> bool
    ensures { result ≡ hides code }
{
    matches!(code, codes::SUPPRESS_IF | codes::DISABLE_IF)
}

// Whether it is one that greys it.
fn is_greying(code: u64) -> bool
    ensures { result ≡ greys code }
{
    code == codes::GRAY_OUT_IF
}

fn is_true(v: Scalar) -> bool
    ensures { result ≡ is_true v }
{
    matches!(v, Scalar::Boolean(true))
}

// ---- the first pass: the byte of every row says what the conditions round the statements in it do to them

// Stays: they are the bits of an item's byte, which the C interface (`vfr_show`) fixes.
const HIDDEN: u8 = 1;

const GREY: u8 = 2;

// What a condition of this code and value does to the statements in it; 0 of any other row.
fn own_flags(code: u64, v: Scalar) -> u8
    ensures { result ≡ own_flags code v }
{
    if !is_true(v) {
        0
    } else if is_hiding(code) {
        HIDDEN
    } else if is_greying(code) {
        GREY
    } else {
        0
    }
}

// The flags in a row, by those in the rows before it.
fn flags_in(out: &[u8], row: usize, table: &[u64], known: Known) -> u8
    requires { row ≤ length out.now }
    ensures { result ≡ flags_in table.now
        (value_after known.entry.answers.saved.now known.entry.answers.gotos.now
        known.entry.answers.checkboxes.now known.entry.rules.now table.now
        (length out.now))
        (take row out.now) row }
{
    let code = cell(table, row, CODE);
    let parent = cell(table, row, PARENT) as usize;
    let flags = out[..row].get(parent).copied().unwrap_or(0);
    if is_hiding(code) || is_greying(code) {
        let v = value_after(table, out.len(), row, known);
        return flags | own_flags(code, v);
    }
    flags
}

// Writes the flags in as many rows as there are bytes.
fn flag_rows(out: &mut [u8], table: &[u64], known: Known)
    ensures { out.new
        ≡ all_flags table.now
        (value_after known.entry.answers.saved.now known.entry.answers.gotos.now
        known.entry.answers.checkboxes.now known.entry.rules.now table.now
        (length out.old))
        (length out.old) }
{
    // Stays: a row's flags are found from the bytes before it in `out`, which `iter_mut` would hold.
    for row in 0..out.len() {
        out[row] = flags_in(out, row, table, known);
    }
}

// ---- the second pass: only the items keep their bytes

// Sets the bytes of all rows but the items' to 0.
fn keep_items(out: &mut [u8], table: &[u64])
    ensures { out.new ≡ items_only table.now 0 out.old }
{
    for (row, byte) in out.iter_mut().enumerate() {
        if !is_item(cell(table, row, CODE)) {
            *byte = 0;
        }
    }
}

// The bytes of a table's first rows, as many as there are bytes.
pub fn show_rows(out: &mut [u8], table: &[u64], known: Known)
    ensures { out.new
        ≡ shown known.entry.answers.saved.now known.entry.answers.gotos.now
        known.entry.answers.checkboxes.now known.entry.rules.now table.now
        (length out.old) }
{
    flag_rows(out, table, known);
    keep_items(out, table);
}
