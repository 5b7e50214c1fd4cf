//! A table with its log, and its number.

use table_log::{Disk, LoggedTable};

/// A table with its log, and the number that it was given among the others.
#[derive(Drop)]
pub(crate) struct Numbered<D: Disk> {
    pub(crate) number: usize,
    pub(crate) log: LoggedTable<D>,
}
