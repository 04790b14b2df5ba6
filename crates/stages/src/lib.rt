// Stages 7 to 12 over the draft rows: each answers the place of the first fault (document 01, Refusal numbers).
#![tactic(auto)]

mod choices;
mod forms;
mod references;
mod repeats;
mod rules;

pub use crate::choices::bad_choice;
pub use crate::references::unfound;
pub use crate::repeats::{repeated_form, repeated_question};
pub use crate::rules::rule_over_limit;
