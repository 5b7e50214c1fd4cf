//! A writer that waits for logs.

ghost use Rattle.std.specs.Prelude.{◌≡◌};

use crate::peer::Peer;
use crate::seat::Seat;
use std::io;
use std::io::{ErrorKind, Write};
use std::sync::Wait;
use table_log::Disk;

/// The writer to the peer of a session. Bytes go to it once the logs are synced that they rest on.
#[derive(Drop)]
pub(crate) struct Synced<'s, 'a, D: Disk, T: Wait, W> {
    pub(crate) seat: &'s Seat<'a, D, T>,
    pub(crate) peer: Peer<W>,
}

impl<'s, 'a, D: Disk, T: Wait, W> Synced<'s, 'a, D, T, W> {
    /// The writer itself.
    pub(crate) fn into_inner(self) -> W
        ensures { result ≡ self.entry.peer.inner }
    {
        let Synced { seat: _, peer } = self;
        peer.into_inner()
    }
}

impl<'s, 'a, D: Disk, T: Wait, W: Write> Write for Synced<'s, 'a, D, T, W> {
    ghost contents = { λ s. W.contents s.peer.inner };

    fn write(&mut self, bytes: &[u8]) -> io::Result<usize> {
        let mut standing = self.seat.lock();
        match self.seat.settle_all(&mut standing) {
            Ok(()) => self.peer.hand_on(&standing, bytes),
            Err(_) => Err(io::Error::from(ErrorKind::Other)),
        }
    }

    fn flush(&mut self) -> io::Result<()> {
        self.peer.flush()
    }
}
