// The kinds of bytes, the classes of tokens, the reserved words with their classes, and words: where one ends, whether two are the same
// (document 01, Tokens).
#![tactic(auto)]

pub mod bytes;
pub mod classes;
pub mod reserved;
pub mod words;
