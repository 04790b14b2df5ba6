// What the programs that run stored cases through the library share: packed numbers read from an input, the marks that
// buffers are filled with, what came compared with what is expected, texts put into a buffer, and tallies.
#![tactic(auto)]

pub mod differ;
pub mod fill;
pub mod input;
pub mod put;
pub mod tally;
