//! What a start knows of a table's log.

use crate::base::Base;
use checked_disk::Kept;
use checked_log::{Marks, Recovered};

/// What a start knows of a table's log.
#[derive(Drop)]
pub struct About {
    /// What the log begins behind.
    pub base: Base,
    /// What recovery found.
    pub recovered: Recovered,
    /// What the mark says.
    pub marks: Marks,
    /// The log, to go on with once its files are opened again.
    pub kept: Kept,
    /// The logs from before that may go.
    pub spent: Vec<Option<u64>>,
}
