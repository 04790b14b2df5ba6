// What the rows are made of.
ghost use Rattle.std.specs.Prelude.{◌≡◌, ◌<◌, []};
ghost use Rattle.rows.specs.Marks.{marked};
ghost use Rattle.grammar.specs.Source.{number_at};
ghost use Rattle.answers.specs.Rows.{row_with};
ghost use Rattle.answers.specs.Drafts.{encoded};
ghost use Rattle.elements.specs.Entries.{KEPT};
ghost use Rattle.fields.specs.Phrases.{kept, marked_value};

use elements::KEPT;
use rows::columns::{CODE, FIRST, FLAGS, PARENT, PLACE, ROW, SECOND};
use rows::draft::with_mark;

// A phrase of a source whose row is made: the row of its parent, its place, and the entries that it keeps.
// Stays: an entry is a number, since it is a mark in one phrase, flags or a truth in another, and 0 where it is absent.
#[derive(Clone, Copy)]
pub struct Phrase<'a> {
    pub src: &'a [u8],
    pub parent: usize,
    pub place: usize,
    pub k: [u64; KEPT],
}

impl Phrase<'_> {
    // The value of the number whose mark an entry is.
    pub fn value(&self, entry: usize) -> u64
        requires { entry < KEPT }
        ensures { result ≡ marked_value (number_at self.now.src.now) (kept self.now.k entry) }
    {
        value(self.src, self.k[entry])
    }

    // A row of no more than a code, with the phrase's parent and place.
    pub fn row(&self, code: u64) -> [u64; ROW]
        ensures { result ≡ row_with code self.now.parent self.now.place [] }
    {
        plain_row(code, self.parent, self.place)
    }
}

// The place that a mark tells.
pub fn place_of(mark: u64) -> Option<usize>
    ensures { marked result ≡ mark }
{
    mark.checked_sub(1).map(|at| at as usize)
}

// The value of the number at a mark, 0 where there is none or it does not fit.
pub fn value(src: &[u8], mark: u64) -> u64
    ensures { result ≡ marked_value (number_at src.now) mark }
{
    let Some(at) = place_of(mark) else {
        return 0;
    };
    values::value_at(src, at).unwrap_or(0)
}

// A row of no more than its code, parent and place.
pub fn plain_row(code: u64, parent: usize, place: usize) -> [u64; ROW]
    ensures { result ≡ row_with code parent place [] }
{
    let mut r = [0; ROW];
    r[CODE] = code;
    r[PARENT] = parent as u64;
    r[PLACE] = place as u64;
    r
}

// The row with its marks.
#[tactic(auto, unfolding(answers::specs::Drafts::encoded))]
pub fn with_marks(row: [u64; ROW], own: u64, limit: u64, default: u64) -> [u64; ROW]
    ensures { result ≡ encoded (record { row = row; own_at = own; limit_at = limit; default_at = default }) }
{
    let mut r = row;
    r[FIRST] = with_mark(row[FIRST], own);
    r[SECOND] = with_mark(row[SECOND], limit);
    r[FLAGS] = with_mark(row[FLAGS], default);
    r
}
