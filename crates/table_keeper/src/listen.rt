//! Where connections come in.
ghost use Rattle.std.specs.Io.{ReadsAtMost, WritesAtMost};

use program_words::Address;
use std::fs::Permissions;
use std::io::{ErrorKind, Read, Write};
use std::net::{TcpListener, TcpStream};
use std::os::unix::fs::{FileTypeExt, PermissionsExt};
use std::os::unix::net::{UnixListener, UnixStream};
use std::time::Duration;
use std::{fs, io};

/// Who may connect to a Unix socket: its owner.
const SOCKET_MODE: u32 = 0o700;

/// A socket that accepts connections.
#[derive(Debug, Drop)]
pub(crate) enum Listening {
    Unix(UnixListener),
    Tcp(TcpListener),
}

/// A connection that was accepted.
#[derive(Debug, Drop)]
pub(crate) enum Connection {
    Unix(UnixStream),
    Tcp(TcpStream),
}

impl Listening {
    /// Listens at the address. A Unix socket that nobody serves any more is removed before.
    pub(crate) fn at(rt: &HostRuntime, address: Address<'_>) -> io::Result<Listening> {
        match address {
            Address::Unix(path) => match bind(rt, path) {
                Ok(listener) => Ok(Listening::Unix(listener)),
                Err(error) => {
                    if !is_left(rt, path) {
                        return Err(error);
                    }
                    fs::remove_file(rt, path)?;
                    Ok(Listening::Unix(bind(rt, path)?))
                }
            },
            Address::Tcp(place) => Ok(Listening::Tcp(TcpListener::bind(rt, place)?)),
        }
    }

    /// Accepts a connection, in one call.
    pub(crate) fn accept(&self) -> io::Result<Connection> {
        match self {
            Listening::Unix(listener) => {
                let (stream, _) = listener.accept()?;
                Ok(Connection::Unix(stream))
            }
            Listening::Tcp(listener) => {
                let (stream, _) = listener.accept()?;
                Ok(Connection::Tcp(stream))
            }
        }
    }
}

// Binds a Unix socket that its owner alone may connect to.
fn bind(rt: &HostRuntime, path: &str) -> io::Result<UnixListener> {
    let listener = UnixListener::bind(rt, path)?;
    fs::set_permissions(rt, path, Permissions::from_mode(SOCKET_MODE))?;
    Ok(listener)
}

// Whether a socket stands at the path that refuses connections.
fn is_left(rt: &HostRuntime, path: &str) -> bool {
    let Ok(found) = fs::symlink_metadata(rt, path) else {
        return false;
    };
    if !found.file_type().is_socket() {
        return false;
    }
    match UnixStream::connect(rt, path) {
        Ok(_) => false,
        Err(error) => error.kind() == ErrorKind::ConnectionRefused,
    }
}

impl Connection {
    /// Reads once.
    pub(crate) fn read(&self, piece: &mut [u8]) -> io::Result<usize>
        ensures { ReadsAtMost result piece.new }
    {
        match self {
            Connection::Unix(stream) => {
                let mut stream = stream;
                stream.read(piece)
            }
            Connection::Tcp(stream) => {
                let mut stream = stream;
                stream.read(piece)
            }
        }
    }

    /// Writes once.
    pub(crate) fn write(&self, bytes: &[u8]) -> io::Result<usize>
        ensures { WritesAtMost result bytes.now }
    {
        match self {
            Connection::Unix(stream) => {
                let mut stream = stream;
                stream.write(bytes)
            }
            Connection::Tcp(stream) => {
                let mut stream = stream;
                stream.write(bytes)
            }
        }
    }

    /// Lets reads fail that wait longer, if any time is given.
    pub(crate) fn limit_reads(&self, most: Option<Duration>) -> io::Result<()> {
        match self {
            Connection::Unix(stream) => stream.set_read_timeout(most),
            Connection::Tcp(stream) => stream.set_read_timeout(most),
        }
    }

    /// Lets writes fail that wait longer, if any time is given.
    pub(crate) fn limit_writes(&self, most: Option<Duration>) -> io::Result<()> {
        match self {
            Connection::Unix(stream) => stream.set_write_timeout(most),
            Connection::Tcp(stream) => stream.set_write_timeout(most),
        }
    }

    /// Lets reads and writes fail that wait longer than so many seconds, if any. Answers are written in whole pieces, so there is
    /// nothing to wait for before one is sent.
    pub(crate) fn prepare(&self, idle: u32) -> io::Result<()> {
        let timeout = if idle == 0 {
            None
        } else {
            Some(Duration::from_secs(u64::from(idle)))
        };
        if let Connection::Tcp(stream) = self {
            stream.set_nodelay(true)?;
        }
        self.limit_reads(timeout)?;
        self.limit_writes(timeout)
    }
}
