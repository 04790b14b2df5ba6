// The faults that reading goes on after: the first of each sort is noted.
ghost use Rattle.std.specs.Prelude.{◌≡◌};
ghost use Rattle.rows.specs.Marks.{marked};
ghost use Rattle.elements.specs.Marks.{nothing_noted, with_second, with_outside};

// The place of the first second size or display word (document 02, W-204, No. 16), and that of the first number outside its
// place (document 01, No. 5).
#[derive(Clone, Copy, Debug, PartialEq, Eq)]
pub struct Noted {
    pub second: Option<usize>,
    pub outside: Option<usize>,
}

// Nothing is noted.
pub fn nothing_noted() -> Noted
    ensures { result ≡ nothing_noted }
{
    Noted {
        second: None,
        outside: None,
    }
}

// With a second word at a place, if any, unless there was one.
pub fn with_second(n: Noted, place: Option<usize>) -> Noted
    ensures { result ≡ with_second n (marked place) }
{
    Noted {
        second: n.second.or(place),
        ..n
    }
}

// With a number outside its place, likewise.
pub fn with_outside(n: Noted, place: Option<usize>) -> Noted
    ensures { result ≡ with_outside n (marked place) }
{
    Noted {
        outside: n.outside.or(place),
        ..n
    }
}
