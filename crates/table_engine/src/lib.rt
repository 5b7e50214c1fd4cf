//! Answers streams of lines over the tables of a schema, however they come in pieces.
#![tactic(auto)]

mod again;
mod ahead;
mod answers;
mod carry;
mod count;
mod cutter;
mod engine;
mod event;
mod run;
mod serve;
mod session;
mod sink;
mod source;
mod stopped;
mod stream;
mod waiting;

pub use again::{MOST_TRIES, is_interrupted};
pub use answers::Answers;
pub use cutter::{Cut, LineCutter, MAX_LINE, is_blank};
pub use engine::Engine;
pub use event::{Event, Stop};
pub use run::run_events;
pub use serve::serve_lines;
pub use sink::{Sink, Unwritten};
pub use source::Source;
pub use stopped::Stopped;
pub use stream::{PIECE, StreamFault, serve_stream};
