//! Prints what the sessions of one engine are answered whose streams come in pieces, by turns. Standard input holds a schema
//! file, a line `---`, and then lines that begin with a session, from 0 to 3:
//!
//! - `SESSION.BYTES`: a piece of the session's stream;
//! - `SESSION+BYTES`: the piece goes on after a newline, with the bytes of the next line;
//! - `SESSION!`: the end of the session's stream; the next piece begins a new one.
//!
//! For each piece and each end it prints the session, and below it the answers to the lines that this completes; where another
//! session is answered something, that one too. Of a line of another form it prints `no piece`.
#![tactic(auto)]

mod input;
mod pieces;

use input::Input;
use pieces::Sessions;
use std::io;
use std::io::Write;

fn main(rt: HostRuntime) -> io::Result<()> {
    let alloc = rt.alloc();
    let input = Input::read(&rt)?;
    let Ok(schema) = input.schema(alloc) else {
        return io::writer(&rt).write_all(b"no schema\n");
    };
    let mut sessions = Sessions::new(alloc, &schema)?;
    let mut output = io::writer(&rt);
    for line in &input.lines {
        sessions.take(line)?;
        output.write_all(sessions.report())?;
        sessions.clear();
    }
    Ok(())
}
