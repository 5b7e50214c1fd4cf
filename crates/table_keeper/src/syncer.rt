//! Who waits for the system to have a log, while the log is written.

use logged_tables::Syncer;
use system_files::Waiter;

/// Waits for the files of a log.
#[derive(Drop)]
pub(crate) struct FileSyncer {
    pub(crate) files: Waiter,
}

impl Syncer for FileSyncer {
    fn wait(&mut self) {
        self.files.wait();
    }
}
