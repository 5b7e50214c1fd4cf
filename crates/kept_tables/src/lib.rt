//! Tables with their logs in one thread: what a folder has of them, lines that are carried out, and logs that are synced before answers are told.
#![tactic(auto)]

mod declaration;
mod fault;
mod frame;
mod opening;
mod stream;
mod syncing;
mod tables;

pub use declaration::{declares, text_of};
pub use fault::OpenFault;
pub use frame::types_of;
pub use opening::{LogDisk, open_all};
pub use stream::{Stop, StopWhy};
pub use tables::KeptTables;
