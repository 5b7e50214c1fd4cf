//! The canonical text of a command.
#![tactic(auto)]

mod meaning;
mod object;
mod part;
mod parts;
mod print;
mod write;

pub use meaning::text_meaning;
pub use table_cmd::Command;
pub use table_reply::{Out, OutOfRoom};
pub use write::{canonical_text, set_text, write_command};
