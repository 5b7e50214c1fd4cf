//! What happens on the sessions' streams, and where it stops.

use thiserror::Error;

/// What happens on a session's stream.
#[derive(Clone, Copy, Debug)]
pub enum Event<'a> {
    /// The next bytes.
    Piece { session: usize, bytes: &'a [u8] },
    /// The end. The session's next piece begins a new stream.
    End { session: usize },
}

/// Where a run stopped, since memory for an answer was refused before its line was carried out.
/// All before it stands.
#[derive(Clone, Copy, Debug, PartialEq, Eq, Error)]
#[error("no memory for an answer")]
pub struct Stop {
    /// The event that was not carried out whole.
    pub event: usize,
    /// How many bytes of its piece were taken. The next one, or the end, would have completed the line.
    pub taken: usize,
}
