//! Several tables with their logs, each behind a lock of its own, and streams of lines that are served on them.
#![tactic(auto)]

mod fault;
mod lock;
mod long;
mod numbered;
mod peer;
mod seat;
mod serve;
mod standing;
mod synced;
mod syncer;
mod syncing;
mod tables;

pub use fault::{OverAt, ServeFault};
pub use seat::Seat;
pub use serve::Served;
pub use syncer::Syncer;
pub use syncing::Syncing;
pub use tables::LoggedTables;
