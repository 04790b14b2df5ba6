// What an element of a phrase is printed as, and which of the parts that may be absent are printed.
ghost use Rattle.std.specs.Prelude.{◌≡◌, ◌<◌};
ghost use Rattle.rows.specs.Flags.{is_set};
ghost use Rattle.grammar.specs.Flags.{size_word, display_word};
ghost use Rattle.answers.specs.Text.{truth};
ghost use Rattle.spellings.specs.Printed.{Printed};
ghost use Rattle.print.specs.Phrase.{after_bar, set_words, option_flags, numeric_flags, element_words, shown_by, any_flag, has_flags, has_default};

use elements::kinds::*;
use lexemes::classes::*;
use rows::codes::NUMERIC;
use rows::{displays, flags};
use spellings::output::Output;

// A flag, by its value, is set.
fn is_set(set: u64, flag: u64) -> bool
    requires { 0 < flag }
    ensures { result ≡ is_set flag set }
{
    set / flag % 2 == 1
}

// The flag words in document 01's order, each by its class and its value.
const FLAG_WORDS: [(u8, u64); 3] = [
    (READ_ONLY, flags::READ_ONLY),
    (INTERACTIVE, flags::INTERACTIVE),
    (RESET_REQUIRED, flags::RESET_REQUIRED),
];

// Some flag word is set.
fn any_flag(set: u64) -> bool
    ensures { result ≡ any_flag set }
{
    for (_, flag) in FLAG_WORDS {
        if is_set(set, flag) {
            return true;
        }
    }
    false
}

// A flag word where it is there, after `|` where another stands before it.
fn put_flag(out: &mut Output<'_>, any: bool, there: bool, class: u8)
    ensures { Printed out.old (after_bar any there class) out.new }
{
    if there {
        out.word_if(any, BAR);
        out.word(class);
    }
}

// FL: the flag words that are set, in document 01's order, with `|` between.
fn put_flags(out: &mut Output<'_>, set: u64)
    ensures { Printed out.old (set_words set) out.new }
{
    let mut any = false;
    for (class, flag) in FLAG_WORDS {
        let there = is_set(set, flag);
        put_flag(out, any, there, class);
        any |= there;
    }
}

// The word of a size: that of eight bytes where there is no such word.
fn size_word(size: u64) -> u8
    ensures { result ≡ (size_word size).class }
{
    match size {
        1 => NUMERIC_SIZE_1,
        2 => NUMERIC_SIZE_2,
        4 => NUMERIC_SIZE_4,
        _ => NUMERIC_SIZE_8,
    }
}

// The word of a display: that of unsigned decimals where there is no such word.
fn display_word(display: u64) -> u8
    ensures { result ≡ (display_word display).class }
{
    match display {
        displays::INT_DEC => DISPLAY_INT_DEC,
        displays::UINT_HEX => DISPLAY_UINT_HEX,
        _ => DISPLAY_UINT_DEC,
    }
}

// A numeric's FL: the flag words that are set, then its size and its display.
pub fn put_numeric_flags(out: &mut Output<'_>, set: u64, size_and_display: u64)
    ensures { Printed out.old (numeric_flags set size_and_display) out.new }
{
    put_flags(out, set);
    out.word_if(any_flag(set), BAR);
    out.word(size_word(size_and_display / 4));
    out.word(BAR);
    out.word(display_word(size_and_display % 4));
}

fn put_truth(out: &mut Output<'_>, value: u64)
    ensures { Printed out.old (truth value) out.new }
{
    if value == 1 {
        out.word(TRUE)
    } else {
        out.word(FALSE)
    }
}

// An option's flags: `0` or `DEFAULT`.
fn put_option_flags(out: &mut Output<'_>, set: u64)
    ensures { Printed out.old (option_flags set) out.new }
{
    if is_set(set, flags::OPTION_DEFAULT) {
        return out.word(DEFAULT);
    }
    out.decimal(0)
}

// An element that is no sign and no reserved word, of the value.
pub fn put_element(out: &mut Output<'_>, want: u8, value: u64)
    ensures { Printed out.old (element_words want value) out.new }
{
    match want {
        NAME => out.rule_name(value),
        OPTION_FLAGS => put_option_flags(out, value),
        TRUTH => put_truth(out, value),
        FLAG_LIST => put_flags(out, value),
        H8 => out.hex(value, 8),
        H4 => out.hex(value, 4),
        H2 => out.hex(value, 2),
        _ => out.decimal(value),
    }
}

// A part that may be absent is printed, by the word that it starts with and its row's code and flags: no name of a question,
// its number always, a numeric's flags always and others' where there are any, a step always, a default where one is written.
pub fn shows(word: u8, code: u64, set: u64) -> bool
    ensures { result ≡ shown_by (has_flags code set) (has_default set) word }
{
    match word {
        KW_NAME => false,
        KW_QUESTIONID => true,
        KW_STEP => true,
        KW_DEFAULT => is_set(set, flags::HAS_DEFAULT),
        _ => { (code == NUMERIC) | any_flag(set) }
    }
}
