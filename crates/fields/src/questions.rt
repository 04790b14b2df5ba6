// The rows of questions. A question's HEAD keeps four entries: name, number, prompt, help.
ghost use Rattle.std.specs.Prelude.{◌≡◌, ◌+◌, ◌<◌, []};
ghost use Rattle.grammar.specs.Source.{number_at};
ghost use Rattle.answers.specs.Drafts.{encoded};
ghost use Rattle.elements.specs.Entries.{KEPT};
ghost use Rattle.fields.specs.Phrases.{kept, question_row, goto_draft, checkbox_draft, numeric_draft, one_of_draft};
ghost use Rattle.fields.specs.Drafted.{drafted};

use crate::numerics::{size_and_display, step};
use crate::parts::{Phrase, with_marks};
use elements::flags::set_if;
use rows::codes;
use rows::columns::{A, B, C, D, FIRST, FLAGS, NAME, OWN, ROW, SECOND, SIZE};
use rows::flags::HAS_DEFAULT;

impl Phrase<'_> {
    // The row of a question whose HEAD begins with an entry.
    fn question_row(&self, code: u64, head: usize) -> [u64; ROW]
        requires { head + 3 < KEPT }
        ensures { let k = kept self.now.k in
            result ≡ question_row (number_at self.now.src.now) code self.now.parent self.now.place (k head) (k (head + 1)) (k (head + 2)) (k (head + 3)) [] }
    {
        let mut r = self.row(code);
        r[OWN] = self.value(head + 1);
        r[FIRST] = self.value(head + 2);
        r[SECOND] = self.value(head + 3);
        r[NAME] = self.k[head];
        r
    }

    // Kept: form number, HEAD, flags.
    pub fn goto_row(&self) -> [u64; ROW]
        ensures { result ≡ encoded (drafted goto_draft self.now) }
    {
        let mut r = self.question_row(codes::GOTO, 1);
        r[FLAGS] = self.k[5];
        r[A] = self.value(0);
        with_marks(r, self.k[2], self.k[0], 0)
    }

    // Kept: HEAD, flags, default.
    #[tactic(auto, using(crate::proofs::EntryLaws::set_there))]
    pub fn checkbox_row(&self) -> [u64; ROW]
        ensures { result ≡ encoded (drafted checkbox_draft self.now) }
    {
        let mut r = self.question_row(codes::CHECKBOX, 0);
        r[FLAGS] = self.k[4] % 256 + set_if(self.k[5] != 0, HAS_DEFAULT);
        r[D] = self.k[5] / 2;
        with_marks(r, self.k[1], 0, 0)
    }

    // Kept: HEAD, flags, minimum, maximum, step, default.
    #[tactic(auto, using(crate::proofs::EntryLaws::set_there))]
    pub fn numeric_row(&self) -> [u64; ROW]
        ensures { result ≡ encoded (drafted numeric_draft self.now) }
    {
        let mut r = self.question_row(codes::NUMERIC, 0);
        r[FLAGS] = self.k[4] % 256 + set_if(self.k[8] != 0, HAS_DEFAULT);
        r[A] = self.value(5);
        r[B] = self.value(6);
        r[C] = step(self.src, self.k[7]);
        r[D] = self.value(8);
        r[SIZE] = size_and_display(self.k[4]);
        with_marks(r, self.k[1], self.k[6], self.k[8])
    }

    // Kept: HEAD, flags.
    pub fn one_of_row(&self) -> [u64; ROW]
        ensures { result ≡ encoded (drafted one_of_draft self.now) }
    {
        let mut r = self.question_row(codes::ONE_OF, 0);
        r[FLAGS] = self.k[4];
        with_marks(r, self.k[1], 0, 0)
    }
}
