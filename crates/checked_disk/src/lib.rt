//! A disk that checks itself: the plain lines of a log, kept in a file as lines with digests, with a mark beside it.
#![tactic(auto)]

mod again;
mod beside;
mod cut;
mod disk;
mod fault;
mod files;
mod held;
mod kept;
mod law;
mod mark;
mod reader;
mod recovering;
mod slot_law;
mod tail;
mod texts;

pub use beside::Beside;
pub use disk::CheckedDisk;
pub use fault::{RecoverFault, RecoverWhy};
pub use files::LogFiles;
pub use kept::Kept;
pub use law::what_stands_opens;
pub use mark::MarkFile;
pub use recovering::Found;
pub use slot_law::older_slot_is_put;
