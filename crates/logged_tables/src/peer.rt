//! The peer of a session.

ghost use Rattle.std.specs.Prelude.{◌≡◌, All, None};
ghost use Rattle.std.specs.Io.{WritesAtMost};
ghost use Rattle.std.specs.Io.KnownBytes.{Keeps, WriteAppends};

use crate::standing::Standing;
use std::io;
use std::io::Write;

/// A writer that takes bytes only where no mark stands.
#[derive(Drop)]
pub(crate) struct Peer<W> {
    inner: W,
}

impl<W> Peer<W> {
    /// The peer behind a writer.
    pub(crate) fn new(inner: W) -> Peer<W>
        ensures { result ≡ record { inner = inner } }
    {
        Peer { inner }
    }

    /// The writer itself.
    pub(crate) fn into_inner(self) -> W
        ensures { result ≡ self.inner }
    {
        let Peer { inner } = self;
        inner
    }
}

impl<W: Write> Peer<W> {
    /// Hands bytes on. No mark stands any more.
    pub(crate) fn hand_on(&mut self, _standing: &Standing, bytes: &[u8]) -> io::Result<usize>
        requires { All (λ mark. mark ≡ None) _standing.now }
        ensures bound { WritesAtMost result bytes.now }
        ensures bytes { WriteAppends (W.contents self.old.inner) (W.contents self.new.inner) result bytes.now }
    {
        self.inner.write(bytes)
    }

    /// Flushes the writer, which gives it no bytes.
    pub(crate) fn flush(&mut self) -> io::Result<()>
        ensures { Keeps (W.contents self.old.inner) (W.contents self.new.inner) }
    {
        self.inner.flush()
    }
}
