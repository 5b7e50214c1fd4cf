//! Replies to commands as lines of JSON.
#![tactic(auto)]

mod fault;
mod handle;
mod out;
mod plain;
mod print;
mod ready;
mod records;
mod reply;

pub use container_model::Handle;
pub use fault::Fault;
pub use handle::{SPELLING_LEN, spelling};
pub use key_extract::{Cell, Row, Text};
pub use out::{Out, OutOfRoom, READY_ROOM};
pub use plain::PlainText;
pub use ready::{Ready, Told};
pub use records::{Heading, Record, write_record, write_records};
pub use reply::{Reply, memory_line, write_reply};
