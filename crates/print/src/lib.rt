// Printing a phrase of the grammar from a row into a lent output (document 01, Resolved text), by the list of elements that
// reads it and a list of where each value comes from.
#![tactic(auto)]

pub mod phrase;
pub mod shown;
pub mod sources;
