//! The words of the command line: their written form, and what they say.
#![tactic(auto)]

mod command;
mod forms;
pub mod laws;
mod numbers;
mod options;
mod word;
mod words;

pub use word::Word;
pub use words::{Words, WordsFault, parse_words};
