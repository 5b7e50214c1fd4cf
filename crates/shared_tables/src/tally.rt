//! How many writes a session has.

/// The writes of one session: how many there are, and the number of the last one among the writes of all sessions.
#[derive(Clone, Copy, Debug)]
pub(crate) struct Tally {
    pub(crate) count: u64,
    pub(crate) last: u64,
}
