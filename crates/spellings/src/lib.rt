// Spellings in a lent output: signs and reserved words, numbers, names of rules (document 01, Resolved text). Bytes are
// written where they fit and all are counted.
#![tactic(auto)]

pub mod numerals;
pub mod output;
pub mod spelling;
pub mod words;
