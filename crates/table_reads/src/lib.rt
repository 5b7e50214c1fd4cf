//! What each read tells of a table.
#![tactic(auto)]

mod found;
mod list;
mod positions;
mod range;
mod search;
mod show;
mod step;
mod tell;

pub use step::read;
