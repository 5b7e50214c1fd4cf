//! Sixteen tables and sixteen sessions: a gate that notes all.

use crate::report::Report;
use crate::service::{answers, listen, remove, sent};
use crate::start::{Start, tell_gathered};
use shared_tables::Gate;
use std::alloc::{AllocError, Global};
use std::io;
use std::net::Net;
use std::os::unix::net::UnixStream;
use std::rt::Files;
use std::sync::Wait;
use std::sync::atomic::{AtomicU64, Ordering};
use std::thread::Threads;
use table_sockets::serve_on;

/// How many tables there are, and how many sessions.
pub const TABLES: usize = 16;

pub const SESSIONS: u32 = 16;

/// How many lines a connection sends for each table.
const EACH: usize = 2;

const ACCEPTED: &[u8] = b"{\"at\":";

/// What a line is answered whose table no schema has.
pub const UNNAMED: &[u8] = b"{\"err\":\"table\"}";

/// How often each session entered each table, table after table, and in the end what else was entered.
#[derive(Drop)]
struct Marks {
    entered: Vec<AtomicU64>,
}

impl Marks {
    fn new(alloc: Global) -> Result<Marks, AllocError> {
        let mut entered = Vec::new(alloc);
        for _ in 0..=TABLES * SESSIONS as usize {
            entered.push(AtomicU64::new(0))?;
        }
        Ok(Marks { entered })
    }

    fn note(&self, table: usize, session: u32) {
        let place = if table < TABLES && session < SESSIONS {
            table * SESSIONS as usize + session as usize
        } else {
            TABLES * SESSIONS as usize
        };
        if let Some(mark) = self.entered.get(place) {
            mark.fetch_add(1, Ordering::SeqCst);
        }
    }

    // Adds a line for each table, with what each session entered there, and one for all else.
    fn tell(&self, report: &mut Report) -> Result<(), AllocError> {
        for (place, mark) in self.entered.iter().enumerate() {
            if place % SESSIONS as usize == 0 {
                report.text(if place == 0 {
                    "  entered:"
                } else {
                    "\n  entered:"
                })?;
            }
            report.text(" ")?;
            report.number(mark.load(Ordering::SeqCst))?;
        }
        report.text("\n")
    }
}

/// A gate that notes who enters where.
#[derive(Clone, Copy)]
struct Marking<'a> {
    marks: &'a Marks,
}

impl<'a> Gate for Marking<'a> {
    fn enter(&self, table: usize, session: u32) {
        self.marks.note(table, session);
    }
}

/// Sixteen tables, `t0` to `t15`, each with one column.
pub fn wide(alloc: Global) -> Result<Start, AllocError> {
    let mut schema = Vec::new(alloc);
    for table in 0..TABLES {
        let text = format!(in alloc;
            "[[table]]\nname = \"t{table}\"\ncolumn = [{{name = \"k\", cell = \"int\"}}]\nindex = [{{name = \"s\", kind = \"sequenced\"}}]\n"
        )?;
        schema.extend_from_slice(text.as_bytes())?;
    }
    Ok(Start { alloc, schema })
}

// The lines of a connection: an insertion and a look for each table, and a line that names none.
fn lines(alloc: Global) -> Result<Vec<u8>, AllocError> {
    let mut lines = Vec::new(alloc);
    for table in 0..TABLES {
        let text = format!(in alloc;
            "{{\"op\":\"insert\",\"t\":\"t{table}\",\"r\":{{\"k\":1}}}}\n{{\"op\":\"size\",\"t\":\"t{table}\"}}\n"
        )?;
        lines.extend_from_slice(text.as_bytes())?;
    }
    lines.extend_from_slice(b"{\"op\":\"size\",\"t\":\"t16\"}\n")?;
    Ok(lines)
}

// The connections, each of which has sent its lines.
fn connect<R: Net>(rt: &R, alloc: Global) -> io::Result<Vec<UnixStream>> {
    let lines = lines(alloc)?;
    let mut opened = Vec::new(alloc);
    for _ in 0..SESSIONS {
        opened.push(sent(rt, &lines)?)?;
    }
    Ok(opened)
}

// Adds, for each table, how many lines of all connections were carried out, and then how many named none.
fn tell_answers(
    alloc: Global,
    opened: Vec<UnixStream>,
    report: &mut Report,
) -> Result<(), AllocError> {
    let mut carried = [0u64; TABLES];
    let mut strange = 0u64;
    for stream in opened {
        let told = answers(alloc, stream);
        for (place, answer) in told.split(|byte| *byte == b'\n').enumerate() {
            if answer.starts_with(ACCEPTED) && place / EACH < TABLES {
                carried[place / EACH] = carried[place / EACH].saturating_add(1);
            } else if answer == UNNAMED {
                strange = strange.saturating_add(1);
            }
        }
    }
    report.text("  carried out:")?;
    for count in &carried {
        report.text(" ")?;
        report.number(*count)?;
    }
    report.text("\n  of no table: ")?;
    report.number(strange)?;
    report.text("\n")
}

/// Adds what sixteen connections are answered by sixteen tables, and who entered where.
pub fn tell_wide<R: Files + Net + Threads + Wait + Sync>(
    rt: &R,
    start: &Start,
    report: &mut Report,
) -> io::Result<()> {
    let alloc = start.alloc;
    let start = wide(alloc)?;
    let marks = Marks::new(alloc)?;
    let (shared, passes) = start.tables(SESSIONS, Marking { marks: &marks })?;
    let listening = listen(rt, true)?;
    let opened = connect(rt, alloc)?;
    let done = serve_on(rt, listening, shared, passes, 1);
    remove(rt)?;
    report.text("sixteen connections call sixteen tables\n")?;
    tell_answers(alloc, opened, report)?;
    marks.tell(report)?;
    report.end(done.end)?;
    Ok(tell_gathered(alloc, done.shared, done.passes, report)?)
}
