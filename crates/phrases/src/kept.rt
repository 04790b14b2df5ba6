// What a phrase gives beside its end: the entries that it keeps for its row, and the faults that are noted.
ghost use Rattle.std.specs.Prelude.{◌≡◌, [], ◌∷◌, map, ◌<◌, ◌+◌, ◌^◌};
ghost use Rattle.grammar.specs.Ranges.{out_of};
ghost use Rattle.elements.specs.Marks.{outside, noting};
ghost use Rattle.elements.specs.Kinds.{element_range, element_entry, reference_entries, element_entries};
ghost use Rattle.phrases.specs.Phrase.{Keeps, Notes};

use elements::flags::set_if;
use elements::kinds::*;
use elements::noted::{Noted, with_outside};
use lex::Token;
use lexemes::classes::*;

// The entries stand in a lent slice, as far as there is room, and are counted.
#[derive(Drop)]
pub struct Findings<'a> {
    pub lent: &'a mut [u64],
    pub count: usize,
    pub noted: Noted,
}

impl Findings<'_> {
    // An entry more.
    pub fn push(&mut self, entry: u64)
        ensures { Keeps self.old (entry ∷ []) self.new }
    {
        if self.count < self.lent.len() {
            self.lent[self.count] = entry;
            self.count += 1;
        }
    }

    // A reference keeps two entries: the mark of a name or 0, the mark of a number or 0.
    fn push_reference(&mut self, class: u8, mark: u64)
        ensures { Keeps self.old (reference_entries class mark) self.new }
    {
        let (name, number) = if class == NAME { (mark, 0) } else { (0, mark) };
        self.push(name);
        self.push(number);
    }

    // What the token keeps as the element.
    pub fn push_element(&mut self, want: u8, token: Token)
        requires { token.start + 1 < 2 ^ 64 }
        ensures { Keeps self.old (element_entries want token.class token.start) self.new }
    {
        let mark = token.start as u64 + 1;
        if want == REFERENCE {
            self.push_reference(token.class, mark);
        } else {
            self.push(entry_of(want, token.class, mark));
        }
    }

    // The token, which suits the element, may be a number out of its range. Past the first such number none is looked at.
    pub fn note_range(&mut self, src: &[u8], want: u8, token: Token)
        ensures { Notes self.old (map outside (out_of src.now (element_range want token.class) (token.start ∷ []))) self.new }
    {
        if self.noted.outside.is_none() && !in_range(src, token, want) {
            self.noted = with_outside(self.noted, Some(token.start));
        }
    }
}

// What any other element of one token keeps: the mark of a name or a number; of an option's flags that of DEFAULT; of
// a truth 2 for TRUE and 1 for FALSE.
#[tactic(auto, unfolding(elements::specs::Kinds::element_entry))]
fn entry_of(want: u8, class: u8, mark: u64) -> u64
    ensures { result ≡ element_entry want class mark }
{
    match want {
        OPTION_FLAGS => set_if(class == DEFAULT, mark),
        TRUTH => { if class == TRUE { 2 } else { 1 } }
        _ => mark,
    }
}
