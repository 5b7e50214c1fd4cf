//! How threads end that serve connections. (Connections that are served are tried from outside, by tools/gate/run_sockets.)

use crate::input::Input;
use shared_tables::{OpenGate, Pass, Shared};
use std::alloc::{AllocError, Global};
use std::io::{Read, Write};
use std::net::{Ipv4Addr, Net, Shutdown, TcpListener, TcpStream};
use std::os::unix::net::{UnixListener, UnixStream};
use std::rt::Files;
use std::sync::Wait;
use std::thread::Threads;
use std::{fs, io};
use table_sockets::{End, Listening, serve_on};

const ROW: &str = "{\"op\":\"insert\",\"t\":\"t\",\"r\":{\"k\":9}}\n";

/// The path of the socket's file, where the program runs.
const PATH: &str = "stream_cases.socket";

/// A connection that has sent a row, and its end.
fn sent_row<R: Files + Net>(rt: &R) -> io::Result<UnixStream> {
    let mut stream = UnixStream::connect(rt, PATH)?;
    stream.write_all(ROW.as_bytes())?;
    stream.shutdown(Shutdown::Write)?;
    Ok(stream)
}

/// Empty tables, and so many passes.
fn tables(
    alloc: Global,
    input: &Input,
    workers: u32,
) -> Result<(Shared<OpenGate>, Vec<Pass>), AllocError> {
    let schema = input.schema(alloc).map_err(|_| AllocError)?;
    let (shared, passes, _) = Shared::new(alloc, schema, workers, OpenGate)?;
    Ok((shared, passes))
}

/// How a service ends whose listener does not wait.
fn end_without_waiting<
    R: AllocGlobal + Net<Listener = TcpListener, Stream = TcpStream> + Threads + Wait + Sync,
>(rt: &R, input: &Input) -> io::Result<End> {
    let listener = TcpListener::bind(rt, (Ipv4Addr::LOCALHOST, 0))?;
    listener.set_nonblocking(true)?;
    let (shared, passes) = tables(rt.alloc(), input, 2)?;
    let done = serve_on(rt, Listening::Tcp(listener), shared, passes, 1);
    Ok(done.end)
}

/// What two connections are told of which a pass of no session serves one, and how that service ends: the thread of
/// this pass answers nothing, and the other goes on.
fn end_of_no_session<R: AllocGlobal + Files + Net + Threads + Wait + Sync>(
    rt: &R,
    input: &Input,
) -> io::Result<(String, End)> {
    let (_, passes) = tables(rt.alloc(), input, 2)?;
    let (shared, _) = tables(rt.alloc(), input, 1)?;
    let _ = fs::remove_file(rt, PATH);
    let listening = Listening::Unix(UnixListener::bind(rt, PATH)?);
    let (mut first, mut second) = (sent_row(rt)?, sent_row(rt)?);
    let done = serve_on(rt, listening, shared, passes, 1);
    fs::remove_file(rt, PATH)?;
    let mut told = String::new(rt.alloc());
    first.read_to_string(&mut told)?;
    second.read_to_string(&mut told)?;
    Ok((told, done.end))
}

/// Adds to the report how services end.
pub fn tell_ends<
    R: AllocGlobal
        + Files
        + Net<Listener = TcpListener, Stream = TcpStream>
        + Threads
        + Wait
        + Sync,
>(rt: &R, input: &Input, report: &mut Vec<u8>) -> io::Result<()> {
    let end = end_without_waiting(rt, input)?;
    let text = format!(in rt.alloc(); "a listener that does not wait: {end:?}\n")?;
    report.extend_from_slice(text.as_bytes())?;
    let (told, end) = end_of_no_session(rt, input)?;
    let told = told.as_str();
    let text = format!(in rt.alloc(); "a pass of no session: {end:?}\n{told}")?;
    Ok(report.extend_from_slice(text.as_bytes())?)
}
