//! Where connections come in.
ghost use Rattle.std.specs.Prelude.{◌≢◌, IfErr};
ghost use Rattle.std.specs.IoError.{error_kind};

use crate::accepts::Accepts;
use std::io;
use std::io::{ErrorKind, Read, Write};
use std::net::{TcpListener, TcpStream};
use std::os::unix::net::{UnixListener, UnixStream};
use table_engine::{MOST_TRIES, is_interrupted};

/// A socket that accepts connections.
#[derive(Debug, Drop)]
pub enum Listening {
    Unix(UnixListener),
    Tcp(TcpListener),
}

/// A connection that was accepted.
#[derive(Debug, Drop)]
pub enum Connection {
    Unix(UnixStream),
    Tcp(TcpStream),
}

impl Listening {
    // Accepts a connection. A call that a signal interrupts is made again, up to `MOST_TRIES` times in all.
    fn accept_one(&self) -> io::Result<Connection>
        ensures { IfErr result (λ error. error_kind error ≢ ErrorKind.Interrupted) }
    {
        for _ in 0..MOST_TRIES {
            match self.accept_once() {
                Err(error) if is_interrupted(&error) => {}
                accepted => return accepted,
            }
        }
        Err(io::Error::from(ErrorKind::TimedOut))
    }

    // Accepts a connection, in one call.
    fn accept_once(&self) -> io::Result<Connection> {
        match self {
            Listening::Unix(listener) => {
                let (stream, _) = listener.accept()?;
                Ok(Connection::Unix(stream))
            }
            Listening::Tcp(listener) => {
                let (stream, _) = listener.accept()?;
                // Answers are written in whole pieces, so there is nothing to wait for.
                let _ = stream.set_nodelay(true);
                Ok(Connection::Tcp(stream))
            }
        }
    }
}

/// Nothing is known of the host's sockets.
impl Accepts for Listening {
    type Connection = Connection;

    type Input = ();

    type Output = ();

    type Turn = ();

    ghost use Rattle.table_sockets.specs.Accepting.{unknown};

    ghost known = { λ _. unknown };

    fn begin(&self) {}

    fn accept(&self, _turn: &mut ()) -> io::Result<(Connection, (), ())> {
        let connection = self.accept_one()?;
        Ok((connection, (), ()))
    }

    fn read(&self, connection: &Connection, _input: &mut (), buf: &mut [u8]) -> io::Result<usize> {
        match connection {
            Connection::Unix(stream) => {
                let mut reader = stream;
                reader.read(buf)
            }
            Connection::Tcp(stream) => {
                let mut reader = stream;
                reader.read(buf)
            }
        }
    }

    fn write(&self, connection: &Connection, _output: &mut (), buf: &[u8]) -> io::Result<usize> {
        match connection {
            Connection::Unix(stream) => {
                let mut writer = stream;
                writer.write(buf)
            }
            Connection::Tcp(stream) => {
                let mut writer = stream;
                writer.write(buf)
            }
        }
    }

    fn flush(&self, _connection: &Connection, _output: &mut ()) -> io::Result<()> {
        Ok(())
    }
}
