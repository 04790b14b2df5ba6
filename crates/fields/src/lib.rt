// Draft rows: of a word alone, and of a phrase from the entries that it keeps. While a source is read, the upper halves
// of the columns FIRST, SECOND and FLAGS hold marks: FIRST that of a form's number, of a question's written number and of
// what a reference names; SECOND that of a goto's form number, a numeric's maximum and an option's value; FLAGS that of a
// numeric's default and of an option's word DEFAULT. A mark is a place plus one, or 0 for none.
#![tactic(auto)]

pub mod codes;
mod form_set;
mod numerics;
pub mod operators;
mod parts;
mod phrase;
mod questions;

pub use crate::form_set::form_set_row;
pub use crate::numerics::first_oversized;
pub use crate::phrase::{phrase_row, rule_row, word_row};
