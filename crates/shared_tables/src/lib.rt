//! The tables of a schema, called by several threads: each table behind a lock of its own, with the journal of its accepted
//! writes, and for each session a pass that keeps what the session was told.
#![tactic(auto)]

mod canonical;
mod cell;
mod compare;
mod entry;
mod fault;
mod gathering;
mod holder;
mod journals;
mod law;
mod line;
mod locks;
mod look;
mod looks;
mod pass;
mod request;
mod requests;
mod same;
mod serve;
mod shared;
mod stored;
mod tally;
mod turns;
mod unlocked;
mod waiting;
mod write;
mod writes;

pub use cell::TableCell;
pub use entry::Entry;
pub use fault::{CallFault, GatherWhy, ServeFault};
pub use gathering::{GatherFault, gather};
pub use journals::{Journals, UncomparedJournals};
pub use law::journals_run_again;
pub use pass::Pass;
pub use shared::{Gate, OpenGate, Shared};
