// Line and column of an answer (document 02, W-201, W-202, W-206).
#![tactic(auto)]

ghost use Rattle.std.specs.Prelude.{◌≡◌};
ghost use Rattle.replies.specs.Replies.{has_place, position_of};

use positions::Position;

// Whether an answer with this number has a place in the source: not one that accepts, nor 1, 6, 13, 15, 17 and 30.
fn has_place(number: u64) -> bool
    ensures { result ≡ has_place number }
{
    !matches!(number, 0 | 1 | 6 | 13 | 15 | 17 | 30)
}

// Line and column of an answer's place, or 0 and 0 where it has none.
pub fn position_of(src: &[u8], number: u64, place: usize) -> Position
    ensures { result ≡ position_of src.now number place }
{
    if has_place(number) {
        return positions::position_at(src, place);
    }
    Position { line: 0, column: 0 }
}
