//! Commands on tables, and their parts.
#![tactic(auto)]

mod command;
mod copy;
mod groups;
mod items;
mod part;
mod parts;
mod same;

pub use command::{
    Changes, Command, Field, Fields, HandleText, Handles, Key, KeyBound, Names, Position, Value,
};
pub use container_model::{Handle, Kind};
pub use items::Items;
pub use key_extract::{Cell, Text};
pub use part::CommandPart;
