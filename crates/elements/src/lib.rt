// The grammar's fixed phrases as data: the kinds of elements with what each asks of a token, and each phrase as the
// list of its elements (document 01, Grammar).
#![tactic(auto)]

pub mod flags;
pub mod kinds;
pub mod noted;
pub mod patterns;
pub mod phrase;

// How many entries a phrase keeps at most.
pub const KEPT: usize = 12;
