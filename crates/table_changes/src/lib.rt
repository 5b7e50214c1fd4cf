//! What each change does to a table.
#![tactic(auto)]

mod changed;
mod erase;
mod indices;
mod insert;
mod modify;
mod moves;
mod replace;
mod step;
mod told;

pub use step::{change, is_change};
