//! What accepts connections, and what is read of them and written to them.
ghost use Rattle.std.specs.Prelude.{◌≢◌, IfErr, IfOk, OnErr};
ghost use Rattle.std.specs.Io.{ReadsAtMost, WritesAtMost};
ghost use Rattle.std.specs.Io.KnownBytes.{Keeps, ReadConsumes, WriteAppends};
ghost use Rattle.std.specs.IoError.{error_kind};
ghost use Rattle.table_sockets.specs.Accepting.{Accepting};

use std::io;
use std::io::ErrorKind;

/// What accepts connections. Several threads may do so at once, each in a turn of its own. A connection, what comes of it and
/// what is written to it are three values, so that it can be read while it is written.
pub trait Accepts {
    /// A connection that was accepted.
    type Connection: Drop + Send;

    /// What is known of the bytes that come of a connection.
    type Input: Drop + Send;

    /// What is known of the bytes that are written to a connection.
    type Output: Drop + Send;

    /// What is known of the connections that a thread has accepted.
    type Turn: Drop + Send;

    /// What is known of turns, and of what is read and written.
    ghost known: { Self → Accepting Self.Turn Self.Input Self.Output };

    /// The turn of a thread that has accepted nothing.
    fn begin(&self) -> Self::Turn
        ensures { (known self.now).begun result };

    /// Accepts a connection.
    fn accept(
        &self,
        turn: &mut Self::Turn,
    ) -> io::Result<(Self::Connection, Self::Input, Self::Output)>
        ensures accepted { IfOk result (λ made. (known self.now).accepted turn.old made.1 made.2 turn.new) }
        ensures refused { OnErr result ((known self.now).refused turn.old turn.new) }
        ensures again { IfErr result (λ error. error_kind error ≢ ErrorKind.Interrupted) };

    /// Reads of a connection, as `Read` does.
    fn read(
        &self,
        connection: &Self::Connection,
        input: &mut Self::Input,
        buf: &mut [u8],
    ) -> io::Result<usize>
        ensures bound { ReadsAtMost result buf.new }
        ensures bytes { ReadConsumes ((known self.now).remaining input.old) ((known self.now).remaining input.new) result buf.new };

    /// Writes to a connection, as `Write` does.
    fn write(
        &self,
        connection: &Self::Connection,
        output: &mut Self::Output,
        buf: &[u8],
    ) -> io::Result<usize>
        ensures bound { WritesAtMost result buf.now }
        ensures bytes { WriteAppends ((known self.now).contents output.old) ((known self.now).contents output.new) result buf.now };

    /// Lets go what was written to a connection and is still held back.
    fn flush(&self, connection: &Self::Connection, output: &mut Self::Output) -> io::Result<()>
        ensures { Keeps ((known self.now).contents output.old) ((known self.now).contents output.new) };
}
