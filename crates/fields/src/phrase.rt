// The row of a phrase from its first token and its entries, and the rows that stand for no more than a word.
ghost use Rattle.std.specs.Prelude.{◌≡◌};
ghost use Rattle.grammar.specs.Source.{number_at};
ghost use Rattle.answers.specs.Drafts.{encoded};
ghost use Rattle.fields.specs.Words.{word_draft};
ghost use Rattle.fields.specs.Phrases.{kept, form_draft, subtitle_draft, text_draft, label_draft, option_draft, number_draft, question_ref_draft, rule_ref_draft, phrase_draft, rule_draft};
ghost use Rattle.fields.specs.Drafted.{drafted};

use crate::codes::code_of;
use crate::parts::{Phrase, plain_row, with_marks};
use elements::KEPT;
use elements::flags::set_if;
use lex::Token;
use lexemes::classes::*;
use rows::columns::{A, FIRST, FLAGS, OWN, ROW, SECOND};
use rows::flags::OPTION_DEFAULT;
use rows::{codes, columns};

impl Phrase<'_> {
    // Kept: form number, title.
    fn form_row(&self) -> [u64; ROW]
        ensures { result ≡ encoded (drafted form_draft self.now) }
    {
        let mut r = self.row(codes::FORM);
        r[OWN] = self.value(0);
        r[FIRST] = self.value(1);
        with_marks(r, self.k[0], 0, 0)
    }

    // Kept: text.
    fn subtitle_row(&self) -> [u64; ROW]
        ensures { result ≡ encoded (drafted subtitle_draft self.now) }
    {
        let mut r = self.row(codes::SUBTITLE);
        r[FIRST] = self.value(0);
        with_marks(r, 0, 0, 0)
    }

    // Kept: help, text.
    fn text_row(&self) -> [u64; ROW]
        ensures { result ≡ encoded (drafted text_draft self.now) }
    {
        let mut r = self.row(codes::TEXT);
        r[FIRST] = self.value(1);
        r[SECOND] = self.value(0);
        with_marks(r, 0, 0, 0)
    }

    // Kept: number.
    #[tactic(auto, unfolding(answers::specs::Drafts::encoded))]
    fn label_row(&self) -> [u64; ROW]
        ensures { result ≡ encoded (drafted label_draft self.now) }
    {
        let mut r = self.row(codes::LABEL);
        r[OWN] = self.value(0);
        r
    }

    // Kept: text, value, the word DEFAULT.
    #[tactic(auto, using(crate::proofs::EntryLaws::set_there))]
    fn option_row(&self) -> [u64; ROW]
        ensures { result ≡ encoded (drafted option_draft self.now) }
    {
        let mut r = self.row(codes::OPTION);
        r[FIRST] = self.value(0);
        r[FLAGS] = set_if(self.k[2] != 0, OPTION_DEFAULT);
        r[A] = self.value(1);
        with_marks(r, 0, self.k[1], self.k[2])
    }

    // Kept: number.
    #[tactic(auto, unfolding(answers::specs::Drafts::encoded))]
    fn number_row(&self) -> [u64; ROW]
        ensures { result ≡ encoded (drafted number_draft self.now) }
    {
        let mut r = self.row(codes::NUMBER);
        r[A] = self.value(0);
        r
    }

    // Kept: a name or 0, a number or 0.
    fn question_ref_row(&self) -> [u64; ROW]
        ensures { result ≡ encoded (drafted question_ref_draft self.now) }
    {
        let mut r = self.row(codes::QUESTION_REF);
        r[A] = self.value(1);
        let own = if self.k[0] == 0 { self.k[1] } else { self.k[0] };
        with_marks(r, own, 0, 0)
    }

    // Kept: name.
    fn rule_ref_row(&self) -> [u64; ROW]
        ensures { result ≡ encoded (rule_ref_draft self.now.parent self.now.place (kept self.now.k)) }
    {
        with_marks(self.row(codes::RULE_REF), self.k[0], 0, 0)
    }
}

// The row of a phrase that starts with the token; one that starts with none of the words here is a number.
#[tactic(auto, unfolding(crate::specs::Phrases::phrase_draft))]
pub fn phrase_row(src: &[u8], token: Token, parent: usize, k: [u64; KEPT]) -> [u64; ROW]
    ensures { result ≡ encoded (phrase_draft (number_at src.now) token.class parent token.start (kept k)) }
{
    let place = token.start;
    let phrase = Phrase {
        src,
        parent,
        place,
        k,
    };
    match token.class {
        KW_FORM => phrase.form_row(),
        KW_SUBTITLE => phrase.subtitle_row(),
        KW_TEXT => phrase.text_row(),
        KW_LABEL => phrase.label_row(),
        KW_GOTO => phrase.goto_row(),
        KW_CHECKBOX => phrase.checkbox_row(),
        KW_NUMERIC => phrase.numeric_row(),
        KW_ONEOF => phrase.one_of_row(),
        KW_OPTION => phrase.option_row(),
        KW_QUESTIONREF => phrase.question_ref_row(),
        KW_RULEREF => phrase.rule_ref_row(),
        _ => phrase.number_row(),
    }
}

// The row of a rule, with its own number and the mark of its name.
#[tactic(auto, unfolding(answers::specs::Drafts::encoded))]
pub fn rule_row(parent: usize, place: usize, own: u64, name: u64) -> [u64; ROW]
    ensures { result ≡ encoded (rule_draft parent place own name) }
{
    let mut r = plain_row(codes::RULE, parent, place);
    r[OWN] = own;
    r[columns::NAME] = name;
    r
}

// The row of a word alone: a condition's, an operator's or a constant's.
#[tactic(auto, unfolding(answers::specs::Drafts::encoded))]
pub fn word_row(token: Token, parent: usize) -> [u64; ROW]
    ensures { result ≡ encoded (word_draft token.class parent token.start) }
{
    plain_row(code_of(token.class), parent, token.start)
}
