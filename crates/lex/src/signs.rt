// Signs of one and of two bytes.
ghost use Rattle.std.specs.Prelude.{◌≡◌, [], ◌∷◌};
ghost use Rattle.lexemes.specs.Lexemes.{signs};
ghost use Rattle.lexemes.specs.Words.{place_among};

use lexemes::classes::*;

// The class of the sign of one byte, or SIGNS.
pub fn one_byte(b: u8) -> u8
    ensures { result ≡ place_among (b ∷ []) signs }
{
    match b {
        b'{' => OPEN_BRACE,
        b'}' => CLOSE_BRACE,
        b'(' => OPEN_PAREN,
        b')' => CLOSE_PAREN,
        b',' => COMMA,
        b';' => SEMICOLON,
        b'=' => ASSIGN,
        b'|' => BAR,
        b'&' => AMPERSAND,
        b'<' => LESS,
        b'>' => GREATER,
        b'+' => PLUS,
        b'-' => MINUS,
        b'*' => STAR,
        b'/' => SLASH,
        b'%' => PERCENT,
        _ => SIGNS,
    }
}

// The class of the sign of two bytes of which `=` is the second, or SIGNS.
fn before_equals(b: u8) -> u8
    ensures { result ≡ place_among (b ∷ 61 ∷ []) signs }
{
    match b {
        b'=' => EQUAL,
        b'!' => NOT_EQUAL,
        b'<' => LESS_EQUAL,
        b'>' => GREATER_EQUAL,
        _ => SIGNS,
    }
}

// The class of the sign of two bytes, or SIGNS.
pub fn two_bytes(b: u8, next: u8) -> u8
    ensures { result ≡ place_among (b ∷ next ∷ []) signs }
{
    if next < b'<' {
        return SIGNS;
    }
    if next == b'=' {
        return before_equals(b);
    }
    if next == b'<' {
        return if b == b'<' { SHIFT_LEFT } else { SIGNS };
    }
    if next == b'>' {
        return if b == b'>' { SHIFT_RIGHT } else { SIGNS };
    }
    SIGNS
}
