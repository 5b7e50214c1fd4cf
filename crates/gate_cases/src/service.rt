//! Services in this process, and the connections that they find.

use std::alloc::Global;
use std::io::{Read, Write};
use std::net::{Net, Shutdown};
use std::os::unix::net::{UnixListener, UnixStream};
use std::rt::Files;
use std::time::Duration;
use std::{fs, io};
use table_sockets::Listening;

/// The path of the socket's file, where the program runs.
const PATH: &str = "gate_cases.socket";

/// The seconds that a connection waits at most. Where it waits that long, the case fails.
const SECONDS: u64 = 10;

/// A socket that listens. Connections can be made and bytes be sent before one is accepted. Where it does not wait, an
/// accept fails that finds no connection.
pub fn listen<R: Files + Net>(rt: &R, waits: bool) -> io::Result<Listening> {
    let _ = fs::remove_file(rt, PATH);
    let listener = UnixListener::bind(rt, PATH)?;
    listener.set_nonblocking(!waits)?;
    Ok(Listening::Unix(listener))
}

/// Removes the socket's file.
pub fn remove<R: Files>(rt: &R) -> io::Result<()> {
    fs::remove_file(rt, PATH)
}

/// A connection that has sent some bytes, and nothing more comes.
pub fn sent<R: Net>(rt: &R, bytes: &[u8]) -> io::Result<UnixStream> {
    let mut stream = UnixStream::connect(rt, PATH)?;
    stream.set_read_timeout(Some(Duration::from_secs(SECONDS)))?;
    stream.set_write_timeout(Some(Duration::from_secs(SECONDS)))?;
    stream.write_all(bytes)?;
    stream.shutdown(Shutdown::Write)?;
    Ok(stream)
}

/// What a connection is answered until its end: nothing where it is not accepted, or waits too long.
pub fn answers(alloc: Global, stream: UnixStream) -> Vec<u8> {
    let (mut stream, mut told) = (stream, Vec::new(alloc));
    match stream.read_to_end(&mut told) {
        Ok(_) => told,
        Err(_) => Vec::new(alloc),
    }
}
