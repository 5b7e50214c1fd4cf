//! A table with the log of its accepted writes on a disk: what is loaded of it, what is appended, and what a crash leaves.
#![tactic(auto)]

mod disk;
mod fault;
mod law;
mod loaded;
mod loading;
mod logged;
mod memory;
mod replaying;

pub use disk::Disk;
pub use fault::{DiskFailed, OpenFault, OpenWhy, Over};
pub use law::crash_keeps_synced;
pub use loaded::{Loaded, Opened};
pub use logged::{LoggedTable, Mark};
pub use memory::MemoryDisk;
pub use replaying::{Replayed, replay};
