//! Lines of JSON to commands.
#![tactic(auto)]

mod fault;
mod handle;
mod number;
mod op;
mod parts;
mod read;
mod tree;

pub use fault::CommandFault;
pub use read::{LineReader, read_command};
