//! What the words of the program that keeps its tables ask for.
#![tactic(auto)]

mod asked;
mod command;
mod help;
mod read;

pub use asked::{Altering, Asked, Dumping, Importing, Keeping, OneTable, Tables, When};
pub use read::read_words;
