// The reserved words, one a line, in byte order: capitals before small letters, and a word before those that begin with it. Each is
// filled up with blanks to sixteen bytes. Recognition searches this list and knows the words from nowhere else
// (document 02, W-205).
ghost use Rattle.std.specs.Prelude.{◌≡◌, map};
ghost use Rattle.wordlist.specs.Filled.{filled};
ghost use Rattle.wordlist.specs.Words.{reserved};

// How many there are.
pub const COUNT: usize = 57;

// What stands past the last one.
pub const BLANKS: [u8; 16] = [b' '; 16];

static WORDS: [[u8; 16]; COUNT] = [
    *b"AND             ",
    *b"DEFAULT         ",
    *b"DISPLAY_INT_DEC ",
    *b"DISPLAY_UINT_DEC",
    *b"DISPLAY_UINT_HEX",
    *b"FALSE           ",
    *b"INTERACTIVE     ",
    *b"NOT             ",
    *b"NUMERIC_SIZE_1  ",
    *b"NUMERIC_SIZE_2  ",
    *b"NUMERIC_SIZE_4  ",
    *b"NUMERIC_SIZE_8  ",
    *b"ONE             ",
    *b"ONES            ",
    *b"OR              ",
    *b"READ_ONLY       ",
    *b"RESET_REQUIRED  ",
    *b"STRING_TOKEN    ",
    *b"TRUE            ",
    *b"UNDEFINED       ",
    *b"ZERO            ",
    *b"checkbox        ",
    *b"default         ",
    *b"disableif       ",
    *b"endcheckbox     ",
    *b"endform         ",
    *b"endformset      ",
    *b"endif           ",
    *b"endnumeric      ",
    *b"endoneof        ",
    *b"endrule         ",
    *b"flags           ",
    *b"form            ",
    *b"formid          ",
    *b"formset         ",
    *b"goto            ",
    *b"grayoutif       ",
    *b"guid            ",
    *b"help            ",
    *b"label           ",
    *b"maximum         ",
    *b"minimum         ",
    *b"name            ",
    *b"numeric         ",
    *b"oneof           ",
    *b"option          ",
    *b"prompt          ",
    *b"questionid      ",
    *b"questionref     ",
    *b"rule            ",
    *b"ruleref         ",
    *b"step            ",
    *b"subtitle        ",
    *b"suppressif      ",
    *b"text            ",
    *b"title           ",
    *b"value           ",
];

// All of them.
pub fn words() -> &'static [[u8; 16]]
    ensures { result.now ≡ map filled reserved }
{
    &WORDS
}
