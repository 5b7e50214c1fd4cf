//! How services end whose two threads end in different ways, in either order.

use crate::report::Report;
use crate::service::{listen, remove, sent};
use crate::start::Start;
use shared_tables::OpenGate;
use std::io;
use std::net::Net;
use std::os::unix::net::UnixStream;
use std::rt::Files;
use std::sync::Wait;
use std::thread::Threads;
use table_sockets::{End, serve_on};

/// How often each case is served.
const TIMES: u32 = 5;

/// How many blank lines a connection sends whose thread is to end later than the other.
const BLANK: usize = 20_000;

const LINE: &[u8] = b"{\"op\":\"size\",\"t\":\"p\"}\n";

/// What a connection sends. A pass of no session can't call with a line, and its thread ends by that.
#[derive(Clone, Copy)]
struct Lines {
    /// Whether blank lines come first, which have no answer.
    blank: bool,
    /// Whether a line comes.
    line: bool,
}

const NOTHING: Lines = Lines {
    blank: false,
    line: false,
};

const AT_ONCE: Lines = Lines {
    blank: false,
    line: true,
};

const NOTHING_LATER: Lines = Lines {
    blank: true,
    line: false,
};

const LATER: Lines = Lines {
    blank: true,
    line: true,
};

/// A service of two threads with passes of no session, and its connections.
#[derive(Clone, Copy)]
struct Case {
    name: &'static str,
    /// How many connections each thread takes.
    each: u32,
    /// Whether an accept waits for a connection.
    waits: bool,
    connections: &'static [Lines],
}

const CASES: [Case; 7] = [
    Case {
        name: "fine, then fine",
        each: 1,
        waits: true,
        connections: &[NOTHING, NOTHING_LATER],
    },
    Case {
        name: "fine, then a mismatch",
        each: 1,
        waits: true,
        connections: &[NOTHING, LATER],
    },
    Case {
        name: "a mismatch, then fine",
        each: 1,
        waits: true,
        connections: &[AT_ONCE, NOTHING_LATER],
    },
    Case {
        name: "no connection, then fine",
        each: 1,
        waits: false,
        connections: &[NOTHING_LATER],
    },
    Case {
        name: "no connection, then a mismatch",
        each: 1,
        waits: false,
        connections: &[LATER],
    },
    Case {
        name: "a mismatch, then no connection",
        each: 2,
        waits: false,
        connections: &[AT_ONCE, NOTHING_LATER],
    },
    Case {
        name: "no connection, twice",
        each: 1,
        waits: false,
        connections: &[],
    },
];

// The connections of a case, each of which has sent its lines.
fn connect<R: Net>(rt: &R, start: &Start, case: &Case) -> io::Result<Vec<UnixStream>> {
    let mut opened = Vec::new(start.alloc);
    for lines in case.connections {
        let mut bytes = Vec::new(start.alloc);
        if lines.blank {
            bytes.resize(BLANK, b'\n')?;
        }
        if lines.line {
            bytes.extend_from_slice(LINE)?;
        }
        opened.push(sent(rt, &bytes)?)?;
    }
    Ok(opened)
}

// How the service of a case ends.
fn end_of<R: Files + Net + Threads + Wait + Sync>(
    rt: &R,
    start: &Start,
    case: &Case,
) -> io::Result<End> {
    let (shared, _) = start.tables(1, OpenGate)?;
    let (_, mut passes) = start.tables(3, OpenGate)?;
    passes.reverse();
    passes.truncate(2);
    let listening = listen(rt, case.waits)?;
    let opened = connect(rt, start, case)?;
    let done = serve_on(rt, listening, shared, passes, case.each);
    remove(rt)?;
    drop(opened);
    Ok(done.end)
}

/// Adds how services end whose threads end in different ways.
pub fn tell_ends<R: Files + Net + Threads + Wait + Sync>(
    rt: &R,
    start: &Start,
    report: &mut Report,
) -> io::Result<()> {
    for case in &CASES {
        report.text(case.name)?;
        report.text("\n")?;
        for _ in 0..TIMES {
            report.end(end_of(rt, start, case)?)?;
        }
    }
    Ok(())
}
