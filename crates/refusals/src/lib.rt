// Why a call refuses (document 01, Refusal numbers; document 02, W-202 to W-206). A reason's number never changes.
#![tactic(auto)]

ghost use Rattle.std.specs.Prelude.{◌≡◌};
ghost use Rattle.refusals.specs.Numbers.{number_of};

#[derive(Clone, Copy, Debug, PartialEq, Eq)]
pub enum Reason {
    SourceTooLong,
    BadToken,
    Syntax,
    TooDeep,
    OutOfRange,
    TooFewRows,
    FormRepeated,
    QuestionRepeated,
    NameRepeated,
    TooManyRules,
    FindsNothing,
    BadChoice,
    TextTooLong,
    RuleInCircle,
    BadAnswer,
    SecondWord,
    BadFamily,
    TooFewBytes,
}

// Its number, as C is given it.
impl From<Reason> for u64 {
    ghost from_gives = { λ reason number. number ≡ number_of reason };

    fn from(reason: Reason) -> u64 {
        match reason {
            Reason::SourceTooLong => 1,
            Reason::BadToken => 2,
            Reason::Syntax => 3,
            Reason::TooDeep => 4,
            Reason::OutOfRange => 5,
            Reason::TooFewRows => 6,
            Reason::FormRepeated => 7,
            Reason::QuestionRepeated => 8,
            Reason::NameRepeated => 9,
            Reason::TooManyRules => 10,
            Reason::FindsNothing => 11,
            Reason::BadChoice => 12,
            Reason::TextTooLong => 13,
            Reason::RuleInCircle => 14,
            Reason::BadAnswer => 15,
            Reason::SecondWord => 16,
            Reason::BadFamily => 17,
            Reason::TooFewBytes => 30,
        }
    }
}
