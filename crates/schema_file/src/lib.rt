//! Schema files: TOML that says which tables a server holds.
#![tactic(auto)]

mod read;
mod shape;

pub use read::read_schema;
