//! Takes rows of CSV into the log of an empty table.

use crate::fault::Fault;
use crate::import::{DraftDisk, take_line};
use csv::{ByteRecord, Error, ErrorKind, Reader, ReaderBuilder};
use key_extract::{Cell, Text};
use std::alloc::AllocError;
use std::io::Read;
use std::str;
use table_log::LoggedTable;
use table_reply::Out;
use table_rows::{CellWhy, cell_in, has_twice, insert_line, missing_in, place_in, unknown_in};
use table_schema::{Column, TableSpec};

/// Carries out a command for each row of standard input, which inserts it. The first row names the columns.
pub(crate) fn take_rows(
    rt: &HostRuntime,
    spec: &TableSpec,
    logged: &mut LoggedTable<DraftDisk>,
    draft: &str,
) -> Result<(), Fault> {
    let mut reader = ReaderBuilder::new()
        .has_headers(false)
        .from_reader(rt.alloc(), rt.stdin());
    let mut record = ByteRecord::new(rt.alloc());
    if !next_row(rt, &mut reader, &mut record)? {
        return Err(refused(rt, 1, "there are no names of columns"));
    }
    let places = places_in(rt, spec.columns(), &record)?;
    let Ok(mut out) = Out::new(rt.alloc()) else {
        return Err(Fault::Memory);
    };
    for _ in 0..u64::MAX {
        if !next_row(rt, &mut reader, &mut record)? {
            break;
        }
        let cells = cells_of(rt, spec.columns(), &places, &record)?;
        let line = insert_line(rt.alloc(), logged.table(), &cells)?;
        if !take_line(rt, logged, draft, &line, &mut out)? {
            return Err(banned(rt, line_of(&record), out.bytes()));
        }
    }
    Ok(())
}

// Reads the next row, if there is one.
fn next_row<R: Read>(
    rt: &HostRuntime,
    reader: &mut Reader<R>,
    record: &mut ByteRecord,
) -> Result<bool, Fault> {
    match reader.read_byte_record(record) {
        Ok(is_there) => Ok(is_there),
        Err(error) => Err(unread(rt, &error)),
    }
}

// The fault of a row that can't be read.
fn unread(rt: &HostRuntime, error: &Error) -> Fault {
    match error.kind() {
        ErrorKind::Io(_) => Fault::Input,
        ErrorKind::UnequalLengths {
            pos: Some(at),
            expected_len,
            len,
        } => {
            let (expected, found) = (*expected_len, *len);
            match format!(in rt.alloc(); "{found} fields, and not {expected}") {
                Ok(why) => refused(rt, at.line(), why.as_str()),
                Err(_) => Fault::Memory,
            }
        }
        _ => Fault::Memory,
    }
}

// The line that a row begins at.
fn line_of(record: &ByteRecord) -> u64 {
    match record.position() {
        Some(at) => at.line(),
        None => 1,
    }
}

// Which field of a row each column has, where the first row names columns.
fn places_in(
    rt: &HostRuntime,
    columns: &[Column],
    header: &ByteRecord,
) -> Result<Vec<Option<usize>>, Fault> {
    let names = names_in(rt, header)?;
    if let Some(name) = unknown_in(columns, &names) {
        let name = names.get(name).map_or("", |name| name.as_str());
        return Err(header_refused(rt, format!(in rt.alloc(); "there is no column '{name}'")));
    }
    if has_twice(columns, &names) {
        return Err(refused(rt, 1, "a column stands twice"));
    }
    if let Some(column) = missing_in(columns, &names) {
        let name = name_at(columns, column);
        return Err(header_refused(rt, format!(in rt.alloc(); "column {name} is missing")));
    }
    let mut places = Vec::with_capacity(rt.alloc(), columns.len())?;
    for column in columns {
        places.push(place_in(&names, column.name.as_str()))?;
    }
    Ok(places)
}

// The names of the first row; one that is not UTF-8 is that of no column.
fn names_in(rt: &HostRuntime, header: &ByteRecord) -> Result<Vec<Text>, Fault> {
    let mut names = Vec::with_capacity(rt.alloc(), header.len())?;
    for field in header {
        let name = str::from_utf8(field).unwrap_or("?");
        names.push(Text::copy_of(rt.alloc(), name)?)?;
    }
    Ok(names)
}

// The cells of a row: null where its column has no field.
fn cells_of(
    rt: &HostRuntime,
    columns: &[Column],
    places: &[Option<usize>],
    record: &ByteRecord,
) -> Result<Vec<Cell>, Fault> {
    let mut cells = Vec::with_capacity(rt.alloc(), columns.len())?;
    for (column, place) in columns.iter().zip(places) {
        let cell = match place.and_then(|place| record.get(place)) {
            Some(field) => match cell_in(rt.alloc(), column, field) {
                Ok(cell) => cell,
                Err(why) => return Err(no_cell(rt, record, column, why)),
            },
            None => Cell::Null,
        };
        cells.push(cell)?;
    }
    Ok(cells)
}

// The fault of a field that is no cell of its column.
fn no_cell(rt: &HostRuntime, record: &ByteRecord, column: &Column, why: CellWhy) -> Fault {
    if why == CellWhy::Memory {
        return Fault::Memory;
    }
    let name = column.name.as_str();
    match format!(in rt.alloc(); "column {name}: {why}") {
        Ok(why) => refused(rt, line_of(record), why.as_str()),
        Err(_) => Fault::Memory,
    }
}

// The fault of a row that the table refuses, with the answer.
fn banned(rt: &HostRuntime, line: u64, answer: &[u8]) -> Fault {
    match str::from_utf8(answer) {
        Ok(answer) => refused(rt, line, answer.trim_end()),
        Err(_) => Fault::Memory,
    }
}

// The fault of the first row.
fn header_refused(rt: &HostRuntime, why: Result<String, AllocError>) -> Fault {
    match why {
        Ok(why) => refused(rt, 1, why.as_str()),
        Err(_) => Fault::Memory,
    }
}

// The fault of a row that begins at this line.
fn refused(rt: &HostRuntime, line: u64, why: &str) -> Fault {
    match format!(in rt.alloc(); "line {line}: {why}") {
        Ok(text) => Fault::Rows(text),
        Err(_) => Fault::Memory,
    }
}

// The name of a column.
fn name_at(columns: &[Column], place: usize) -> &str {
    match columns.get(place) {
        Some(column) => column.name.as_str(),
        None => "",
    }
}
