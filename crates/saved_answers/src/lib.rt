// What questions answer (document 02, W-202), by a list of saved answers: two 64-bit words each, the question's number and
// its value. Total for every list; one that ascends by number is searched by halves.
#![tactic(auto)]

ghost use Rattle.std.specs.Prelude.{◌≡◌, false, ◌≤◌, ◌<◌, ℕ, length, get_or, [], ◌∷◌};
ghost use Rattle.saved_answers.specs.Answers.{count, question_of, value_of, by_kind};
ghost use Rattle.numbers.specs.Numbers.{used};
ghost use Rattle.saved_answers.specs.Good.{good_answers};
ghost use Rattle.saved_answers.specs.Search.{lowest, searched, question_value};

use numbers::{Map, has};
use operators::Scalar;

// The saved words as answers, a question's number and its value each; an odd last word is no answer.
fn pairs(saved: &[u64]) -> &[[u64; 2]]
    ensures len { length result.now ≡ count saved.now }
    ensures each { (k : ℕ) → k < count saved.now
        → get_or result.now k [] ≡ question_of saved.now k ∷ value_of saved.now k ∷ [] }
{
    let (answers, _) = saved.as_chunks();
    answers
}

// The first answer for a question of number n or more, by halves; the count of answers where there is none.
fn lowest_answer(saved: &[u64], n: u64) -> usize
    ensures is { result ≡ lowest saved.now n }
    ensures within { result ≤ count saved.now }
{
    let answers = pairs(saved);
    // Stays: `value_of` names this search for every list (`lowest`); `partition_point` says nothing of one that doesn't ascend.
    let mut low = 0;
    let mut high = answers.len();
    while low < high {
        let middle = low + (high - low) / 2;
        if answers[middle][0] < n {
            low = middle + 1;
        } else {
            high = middle;
        }
    }
    low
}

// What question n answers, which is no goto.
fn answer_value(saved: &[u64], n: u64, checkbox: bool) -> Scalar
    ensures { result ≡ by_kind false checkbox (searched saved.now n) }
{
    match pairs(saved).get(lowest_answer(saved, n)) {
        Some(&[question, value]) if question == n => {
            if checkbox {
                Scalar::Boolean(value != 0)
            } else {
                Scalar::Number(value)
            }
        }
        _ => Scalar::Undefined,
    }
}

// The saved answers, and the maps that hold the numbers of gotos and of checkboxes.
#[derive(Clone, Copy)]
pub struct Answers<'a> {
    pub saved: &'a [u64],
    pub gotos: &'a Map,
    pub checkboxes: &'a Map,
}

impl Answers<'_> {
    // What a question of this number answers.
    pub fn value_of(self, question: u64) -> Scalar
        ensures { result ≡ question_value self.entry.saved.now self.entry.gotos.now self.entry.checkboxes.now
            question }
    {
        if has(self.gotos, question) {
            return Scalar::Undefined;
        }
        answer_value(self.saved, question, has(self.checkboxes, question))
    }
}

// How many answers, from the first on, are each for a number that is above the one before and that a question bears:
// the place of the first at fault, where there is one (refusal 15).
pub fn good_answers(answers: &[u64], questions: &Map) -> usize
    ensures { result ≡ good_answers (used questions.now) 0 answers.now }
{
    let answers = pairs(answers);
    let mut last = 0;
    for (k, &[question, _]) in answers.iter().enumerate() {
        if question <= last || !has(questions, question) {
            return k;
        }
        last = question;
    }
    answers.len()
}
