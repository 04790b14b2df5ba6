// From draft rows to the outcome: stages 7 to 12, and 14, and where none refuses the finished rows.
ghost use Rattle.std.specs.Prelude.{◌≡◌, ◌/◌, length};
ghost use Rattle.rows.specs.Columns.{ROW};
ghost use Rattle.answers.specs.Drafts.{drafts_from};
ghost use Rattle.answers.specs.Answer.{answer_past12, answer_of};
ghost use Rattle.names.specs.Names.{Indexes};
ghost use Rattle.read.specs.Answers.{found};
ghost use Rattle.read.specs.Drafted.{Drafted, Ready, table_past12, table_after};

use crate::faults::first_fault;
use crate::{Accepted, refuse};
use circle_stage::circular_reference;
use finish::{settle, strip};
use refusals::Reason;
use walk::Fault;

// An index on the stack: the heads of the buckets, and room for few names, or for as many as a source can declare.
const FEW: usize = 1024;

const SMALL: usize = 2048;

const LARGE: usize = 11946;

// 14, which the settled drafts tell; or the finished rows. What lies past them stays.
fn accept(
    src: &[u8],
    table: &mut [u64],
    count: usize,
    index: &[u64],
    used: &mut [u64; 1024],
) -> Result<Accepted, Fault>
    requires { Ready src.now index.now used.old table.old count }
    ensures result_value { found result ≡ answer_past12 src.now (drafts_from table.old 0 count) }
    ensures table_after { table.new ≡ table_past12 src.now table.old count }
{
    settle(src, table, count, index, used);
    match circular_reference(table, count) {
        Some(place) => refuse(table, Reason::RuleInCircle, place),
        None => {
            strip(table, count);
            let free = numbers::LIMIT - 1 - numbers::used_count(used);
            Ok(Accepted { rows: count, free })
        }
    }
}

// Stages 7 to 12, and 14, and the finished rows, by an index of the declared names.
fn finish_with(
    src: &[u8],
    table: &mut [u64],
    count: usize,
    index: &[u64],
) -> Result<Accepted, Fault>
    requires { Drafted table.old count × Indexes src.now (drafts_from table.old 0 count) index.now }
    ensures result_value { found result ≡ answer_of src.now (drafts_from table.old 0 count) (length table.old / ROW) }
    ensures table_after { table.new ≡ table_after src.now table.old count }
{
    let mut used = numbers::empty();
    match first_fault(src, table, count, index, &mut used) {
        Ok(()) => accept(src, table, count, index, &mut used),
        Err(fault) => refuse(table, fault.reason, fault.place),
    }
}

// With room for as many names as a source can declare.
fn finish_large(src: &[u8], table: &mut [u64], count: usize) -> Result<Accepted, Fault>
    requires { Drafted table.old count }
    ensures result_value { found result ≡ answer_of src.now (drafts_from table.old 0 count) (length table.old / ROW) }
    ensures table_after { table.new ≡ table_after src.now table.old count }
{
    let mut index = [0u64; LARGE];
    names::index_names(src, table, count, &mut index);
    finish_with(src, table, count, &index)
}

// Stages 7 to 12, and 14, and the finished rows.
pub fn finish(src: &[u8], table: &mut [u64], count: usize) -> Result<Accepted, Fault>
    requires { Drafted table.old count }
    ensures result_value { found result ≡ answer_of src.now (drafts_from table.old 0 count) (length table.old / ROW) }
    ensures table_after { table.new ≡ table_after src.now table.old count }
{
    let mut index = [0u64; SMALL];
    let named = names::index_names(src, table, count, &mut index);
    if FEW < named {
        return finish_large(src, table, count);
    }
    finish_with(src, table, count, &index)
}
