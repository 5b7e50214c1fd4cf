//! The state of a table on a disk: what is written of it, and the table that is read.
#![tactic(auto)]

mod fault;
mod gather;
mod law;
mod parts;
mod read;
mod source;
mod write;

pub use fault::StateWhy;
pub use law::stays_standing;
pub use read::read_state;
pub use write::write_state;
