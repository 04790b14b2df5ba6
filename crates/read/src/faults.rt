// Stages 7 to 12.
ghost use Rattle.std.specs.Prelude.{◌≡◌, Ok};
ghost use Rattle.rows.specs.Marks.{marked};
ghost use Rattle.answers.specs.Drafts.{drafts_from};
ghost use Rattle.read.specs.Faults.{stage_fault, first_fault_of, written_after};

use refusals::Reason;
use walk::Fault;

// A stage's fault, at the place that it finds.
fn stage(reason: Reason, found: Option<usize>) -> Result<(), Fault>
    ensures { result ≡ stage_fault reason (marked found) (Ok tt) }
{
    match found {
        Some(place) => Err(Fault { reason, place }),
        None => Ok(()),
    }
}

// The first fault of the rows, by an index of the declared names. Where there is none, the map then has the written
// question numbers too.
pub fn first_fault(
    src: &[u8],
    table: &[u64],
    count: usize,
    index: &[u64],
    used: &mut [u64; 1024],
) -> Result<(), Fault>
    ensures value { result ≡ first_fault_of src.now index.now used.old (drafts_from table.now 0 count) }
    ensures used_after { used.new ≡ written_after used.old (drafts_from table.now 0 count) }
{
    let mut forms = numbers::empty();
    stage(
        Reason::FormRepeated,
        stages::repeated_form(table, count, &mut forms),
    )?;
    stage(
        Reason::QuestionRepeated,
        stages::repeated_question(table, count, used),
    )?;
    stage(
        Reason::NameRepeated,
        names::repeated_name(src, table, count, index),
    )?;
    stage(Reason::TooManyRules, stages::rule_over_limit(table, count))?;
    stage(
        Reason::FindsNothing,
        stages::unfound(src, table, count, index, &forms, used),
    )?;
    stage(Reason::BadChoice, stages::bad_choice(table, count))
}
