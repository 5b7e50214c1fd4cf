//! Replies of each form at the ends of their ranges, all faults, rows under headings, and a buffer's states.

use crate::buffers::new_out;
use crate::printed::is_line_printed;
use std::alloc::{AllocError, Global};
use std::io;
use std::io::Write;
use table_reply::{
    Cell, Fault, Handle, Heading, Out, PlainText, READY_ROOM, Record, Reply, Row, Text,
    write_record, write_records, write_reply,
};

const FIRST: Handle = Handle { slot: 0, stamp: 1 };

const LAST: Handle = Handle {
    slot: u32::MAX,
    stamp: u64::MAX,
};

// Replies of each form without a name.
const REPLIES: [Reply<'static>; 10] = [
    Reply::Found {
        at: 1,
        handle: Some(FIRST),
    },
    Reply::Found {
        at: 0,
        handle: None,
    },
    Reply::Found {
        at: u64::MAX,
        handle: Some(LAST),
    },
    Reply::Counted { at: 3, number: 2 },
    Reply::Counted {
        at: u64::MAX,
        number: u64::MAX,
    },
    Reply::Done { at: 0 },
    Reply::Done { at: u64::MAX },
    Reply::Next {
        at: 4,
        next: Some(FIRST),
    },
    Reply::Next { at: 0, next: None },
    Reply::Next {
        at: u64::MAX,
        next: Some(LAST),
    },
];

const FAULTS: [Fault; 16] = [
    Fault::Line,
    Fault::Json,
    Fault::Command,
    Fault::Table,
    Fault::Index,
    Fault::Kind,
    Fault::Row,
    Fault::Key,
    Fault::Definition,
    Fault::Handle,
    Fault::Place,
    Fault::Order,
    Fault::Overflow,
    Fault::Full,
    Fault::Spent,
    Fault::Memory,
];

// The longest name that an index may have.
const LONGEST: &str = "a_name_of_32_letters_or_digits_0";

// Texts that need an escape.
const NOT_PLAIN: [&str; 5] = ["\"", "a\\", "\u{0}", "a\u{1f}b", "\n"];

// A cell of a row.
#[derive(Clone, Copy)]
enum Value {
    Int(i64),
    Text(&'static str),
    Bool(bool),
    Null,
}

const PLAIN: [Value; 2] = [Value::Int(1), Value::Text("a")];

const ESCAPED: [Value; 2] = [
    Value::Int(-5),
    Value::Text("\"\\/\n\r\t\u{8}\u{c}\u{1}\u{1f}\u{7f}\u{e9}"),
];

// Each byte that has no letter.
const CONTROLS: [Value; 2] = [
    Value::Int(i64::MIN),
    Value::Text(
        "\u{0}\u{1}\u{2}\u{3}\u{4}\u{5}\u{6}\u{7}\u{8}\u{9}\u{a}\u{b}\u{c}\u{d}\u{e}\u{f}\u{10}\u{11}\u{12}\u{13}\u{14}\u{15}\u{16}\u{17}\u{18}\u{19}\u{1a}\u{1b}\u{1c}\u{1d}\u{1e}\u{1f}",
    ),
];

const NULL: [Value; 2] = [Value::Null, Value::Text("null")];

const BEYOND_ASCII: [Value; 2] = [
    Value::Null,
    Value::Text("\u{80}\u{7ff}\u{20ac}\u{ffff}\u{1f600}\u{10ffff}"),
];

const WIDE: [Value; 3] = [Value::Bool(true), Value::Bool(false), Value::Int(i64::MIN)];

const QUOTED: [Value; 2] = [Value::Int(i64::MAX), Value::Text("\"\u{1}")];

// A column's name, and its place.
type Named = (&'static str, usize);

// Columns in the order of their names.
const BY_NAME: [Named; 2] = [("g", 1), ("id", 0)];

// Columns in another order, of which two have no cell in some rows.
const AS_GIVEN: [Named; 3] = [("z", 0), ("a", 2), ("\"", 3)];

const OUTSIDE: [Named; 2] = [("z", 0), ("\"", 3)];

fn push(out: &mut Out, text: &str) -> Result<(), AllocError> {
    out.try_push(text.as_bytes()).map_err(|_| AllocError)
}

// Adds a line where `serde_json` prints what stands from a place on otherwise.
fn look_at_line(alloc: Global, out: &mut Out, start: usize) -> Result<(), AllocError> {
    let line = out.bytes().get(start..).unwrap_or(&[]);
    if is_line_printed(alloc, line) {
        return Ok(());
    }
    push(out, "is printed otherwise\n")
}

// The line of a reply.
fn push_reply(alloc: Global, out: &mut Out, reply: &Reply) -> Result<(), AllocError> {
    let start = out.bytes().len();
    write_reply(reply, out).map_err(|_| AllocError)?;
    look_at_line(alloc, out, start)
}

// A text that needs no escape.
fn plain(text: &str) -> Result<PlainText<'_>, AllocError> {
    PlainText::new(text).ok_or(AllocError)
}

// The lines of replies with the name of an index.
fn push_named(alloc: Global, out: &mut Out) -> Result<(), AllocError> {
    let banned = Reply::Banned {
        at: 2,
        index: plain("u")?,
        by: FIRST,
    };
    push_reply(alloc, out, &banned)?;
    let erased = Reply::Erased {
        at: u64::MAX,
        index: plain(LONGEST)?,
        by: LAST,
    };
    push_reply(alloc, out, &erased)?;
    let clash = Reply::Clash {
        at: 3,
        index: plain("k")?,
        first: FIRST,
        second: Handle { slot: 2, stamp: 3 },
    };
    push_reply(alloc, out, &clash)?;
    let longest = Reply::Clash {
        at: u64::MAX,
        index: plain(LONGEST)?,
        first: LAST,
        second: FIRST,
    };
    push_reply(alloc, out, &longest)
}

// A line for each text that is taken for plain and is not.
fn push_not_plain(out: &mut Out) -> Result<(), AllocError> {
    for text in NOT_PLAIN {
        if PlainText::new(text).is_some() {
            push(out, "is taken for plain\n")?;
        }
    }
    Ok(())
}

fn push_fault(alloc: Global, out: &mut Out, fault: Fault) -> Result<(), AllocError> {
    push(out, fault.name())?;
    push(out, " ")?;
    push_reply(alloc, out, &Reply::Fault(fault))
}

fn push_replies(alloc: Global, out: &mut Out) -> Result<(), AllocError> {
    push(out, "=== replies\n")?;
    for reply in &REPLIES {
        push_reply(alloc, out, reply)?;
    }
    push_named(alloc, out)?;
    push_not_plain(out)?;
    let start = out.bytes().len();
    write_records(7, &[], &[], out).map_err(|_| AllocError)?;
    look_at_line(alloc, out, start)?;
    for fault in FAULTS {
        push_fault(alloc, out, fault)?;
    }
    Ok(())
}

fn cell(alloc: Global, value: Value) -> Result<Cell, AllocError> {
    Ok(match value {
        Value::Int(number) => Cell::Int(number),
        Value::Text(text) => Cell::Text(Text::copy_of(alloc, text)?),
        Value::Bool(truth) => Cell::Bool(truth),
        Value::Null => Cell::Null,
    })
}

fn row(alloc: Global, values: &[Value]) -> Result<Row, AllocError> {
    let mut cells = Vec::new(alloc);
    for value in values {
        cells.push(cell(alloc, *value)?)?;
    }
    Ok(Row::new(cells))
}

fn headings(alloc: Global, columns: &[Named]) -> Result<Vec<Heading>, AllocError> {
    let mut headings = Vec::new(alloc);
    for (name, place) in columns {
        let name = Text::copy_of(alloc, name)?;
        headings.push(Heading {
            name,
            place: *place,
        })?;
    }
    Ok(headings)
}

fn push_listed(
    alloc: Global,
    out: &mut Out,
    columns: &[Named],
    records: &[Record],
) -> Result<(), AllocError> {
    let headings = headings(alloc, columns)?;
    let start = out.bytes().len();
    write_records(2, &headings, records, out).map_err(|_| AllocError)?;
    look_at_line(alloc, out, start)
}

fn push_lists(alloc: Global, out: &mut Out, records: &[Record]) -> Result<(), AllocError> {
    push_listed(alloc, out, &BY_NAME, records)?;
    push_listed(alloc, out, &AS_GIVEN, records)
}

// Rows below headings.
fn push_rows(alloc: Global, out: &mut Out) -> Result<(), AllocError> {
    push(out, "=== rows\n")?;
    let plain = row(alloc, &PLAIN)?;
    let escaped = row(alloc, &ESCAPED)?;
    let wide = row(alloc, &WIDE)?;
    let controls = row(alloc, &CONTROLS)?;
    let null = row(alloc, &NULL)?;
    let beyond = row(alloc, &BEYOND_ASCII)?;
    let records = [
        Record {
            handle: Handle { slot: 1, stamp: 2 },
            row: &plain,
        },
        Record {
            handle: FIRST,
            row: &escaped,
        },
        Record {
            handle: Handle { slot: 2, stamp: 9 },
            row: &wide,
        },
        Record {
            handle: Handle { slot: 3, stamp: 4 },
            row: &controls,
        },
        Record {
            handle: Handle { slot: 4, stamp: 5 },
            row: &null,
        },
        Record {
            handle: LAST,
            row: &beyond,
        },
    ];
    push_lists(alloc, out, &records)
}

fn push_shown(
    alloc: Global,
    out: &mut Out,
    at: u64,
    columns: &[Named],
    record: Record,
) -> Result<(), AllocError> {
    let headings = headings(alloc, columns)?;
    let start = out.bytes().len();
    write_record(at, &headings, &record, out).map_err(|_| AllocError)?;
    look_at_line(alloc, out, start)
}

// One record below headings.
fn push_records(alloc: Global, out: &mut Out) -> Result<(), AllocError> {
    push(out, "=== shown\n")?;
    let row = row(alloc, &QUOTED)?;
    let first = Record {
        handle: FIRST,
        row: &row,
    };
    let last = Record {
        handle: LAST,
        row: &row,
    };
    push_shown(alloc, out, 1, &BY_NAME, first)?;
    push_shown(alloc, out, 0, &[], first)?;
    push_shown(alloc, out, u64::MAX, &OUTSIDE, last)
}

fn push_state(alloc: Global, report: &mut Out, out: &Out) -> Result<(), AllocError> {
    let text = String::from_utf8_lossy(alloc, out.bytes())?;
    let state = format!(in alloc; "{} '{}'\n", out.bytes().len(), text.as_str())?;
    push(report, state.as_str())
}

// A buffer's length and bytes as it takes texts and gives them back.
fn push_states(alloc: Global, report: &mut Out) -> Result<(), AllocError> {
    push(report, "=== buffer\n")?;
    let mut out = new_out(alloc)?;
    push_state(alloc, report, &out)?;
    out.ready().map_err(|_| AllocError)?.end();
    out.push(b"one ");
    out.push(b"two ");
    out.try_push(b"three ").map_err(|_| AllocError)?;
    out.try_push_all(&["four", "", "."])
        .map_err(|_| AllocError)?;
    push_state(alloc, report, &out)?;
    out.truncate(3);
    push_state(alloc, report, &out)?;
    out.clear();
    push_state(alloc, report, &out)?;
    out.push(&[b'x'; READY_ROOM]);
    push_state(alloc, report, &out)
}

/// All of them. It takes no lines.
pub(crate) fn tell(rt: &HostRuntime) -> io::Result<()> {
    let alloc = rt.alloc();
    let mut out = new_out(alloc)?;
    push_replies(alloc, &mut out)?;
    push_rows(alloc, &mut out)?;
    push_records(alloc, &mut out)?;
    push_states(alloc, &mut out)?;
    io::writer(rt).write_all(out.bytes())
}
