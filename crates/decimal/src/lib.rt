// Decimal numbers: a scanner that is fed an input in chunks, and the writing of numbers and words.
#![tactic(auto)]

mod scanner;
mod writer;

pub use scanner::{Scan, feed, finish};
pub use writer::Page;
