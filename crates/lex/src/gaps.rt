// Blanks and comments, which stand between tokens.
ghost use Rattle.std.specs.Prelude.{◌≡◌, not, ◌+◌, eqb, get_or, drop};
ghost use Rattle.lexemes.specs.Words.{run};
ghost use Rattle.lex.specs.Tokens.{opens_comment};

use lexemes::bytes::byte_at;

// The first LF from `at` on, or the end.
pub fn line_end(src: &[u8], at: usize) -> usize
    ensures { result ≡ at + run (λ b. not (eqb b 10)) (drop at src.now) }
{
    for i in at..src.len() {
        if src[i] == b'\n' {
            return i;
        }
    }
    src.len().max(at)
}

// A comment starts at `at`.
pub fn starts_comment(src: &[u8], at: usize) -> bool
    ensures { result ≡ opens_comment (get_or src.now at 0) (get_or src.now (at + 1) 0) }
{
    at < src.len() && src[at] == b'/' && byte_at(src, at + 1) == b'/'
}
