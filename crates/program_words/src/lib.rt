//! What the words of the program ask for.
#![tactic(auto)]

mod address;
mod asked;
mod command;
mod help;
mod read;

pub use address::Address;
pub use asked::{Asked, WordsFault};
pub use read::read_words;
