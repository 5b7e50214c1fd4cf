//! Connections that are served in threads, on tables behind locks.
#![tactic(auto)]

mod accepts;
mod end;
mod halves;
mod listening;
mod serving;
mod worker;

pub use accepts::Accepts;
pub use end::{Done, End};
pub use listening::{Connection, Listening};
pub use serving::serve_on;
