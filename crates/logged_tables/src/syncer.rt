//! Who waits for the system while calls go on.

/// Waits for the disk of one log.
pub trait Syncer: Drop {
    /// Waits until the system has what the disk had at its `begin_sync` where a crash leaves it. Its `end_sync` tells what came of that.
    fn wait(&mut self);
}
