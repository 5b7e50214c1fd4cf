//! A log's disk in a file.
#![tactic(auto)]

mod again;
mod disk;
mod file;

pub use disk::FileDisk;
pub use file::LogFile;
