//! Answers with records, by the writer that `serde_json` prints with.

ghost use Rattle.std.specs.Prelude.{◌++◌, Some, codes, map, slice_get};
ghost use Rattle.std.specs.Option.{option_copied};
ghost use Rattle.json.specs.Print.{print};
ghost use Rattle.table_reply.specs.Answer.{answer_data, answer_text, shown, listed, handle_data, data_of, row_data, named, listed_of, listed_data, listed_items};
ghost use Rattle.table_reply.specs.Buffer.{AddsOrNot};
ghost use Rattle.table_reply.specs.Printed.{AddsPrinted, Prints, data_tokens, list_tokens};

use crate::handle::spelling;
use crate::out::{Out, OutOfRoom};
use container_model::Handle;
use json::Writer;
use key_extract::{Cell, Row, Text};
use std::alloc::AllocError;

/// A column of an answer's rows: its name, and the place of its cell in a row.
#[derive(Drop)]
pub struct Heading {
    /// The name, as it is printed.
    pub name: Text,
    /// The place of the cell, from 0. Where a row has none there, it prints as null.
    pub place: usize,
}

/// A record that an answer shows.
#[derive(Clone, Copy)]
pub struct Record<'a> {
    /// The record's name.
    pub handle: Handle,
    /// Its cells.
    pub row: &'a Row,
}

/// Appends the line of a record that a read found, with its newline, where the table's write number is `at`. Its row shows
/// the cells of the headings in their order. At an `Err` nothing is appended: memory was refused. O(length of the line).
pub fn write_record(
    at: u64,
    headings: &[Heading],
    record: &Record,
    out: &mut Out,
) -> Result<(), OutOfRoom>
    ensures { AddsOrNot result out.old out.new (answer_text (shown at (listed_of headings.now record.now))) }
{
    let mut line = out.new_line()?;
    let printed = print_shown(&mut line, at, headings, record);
    push_line(out, line, printed)
}

/// The same of the records that a read found. O(length of the line).
pub fn write_records(
    at: u64,
    headings: &[Heading],
    records: &[Record],
    out: &mut Out,
) -> Result<(), OutOfRoom>
    ensures { AddsOrNot result out.old out.new (answer_text (listed at (map (listed_of headings.now) records.now))) }
{
    let mut line = out.new_line()?;
    let printed = print_listed(&mut line, at, headings, records);
    push_line(out, line, printed)
}

// Appends what was printed.
fn push_line(out: &mut Out, line: Writer, printed: Result<(), AllocError>) -> Result<(), OutOfRoom>
    ensures { AddsPrinted printed result out.old out.new (line.before ++ (print line.tokens ++ codes "\n")) }
{
    let mut text = line.into_inner();
    if printed.is_err() || text.push(b'\n').is_err() {
        return Err(OutOfRoom);
    }
    out.try_push(&text)
}

fn print_handle(line: &mut Writer, handle: Handle) -> Result<(), AllocError>
    ensures { Prints result line.old line.new (data_tokens (handle_data (Some handle))) }
{
    line.string(spelling(handle).as_str())
}

fn print_cell(line: &mut Writer, cell: Option<&Cell>) -> Result<(), AllocError>
    ensures { Prints result line.old line.new (data_tokens (data_of (option_copied cell.entry))) }
{
    match cell {
        None | Some(Cell::Null) => line.null(),
        Some(Cell::Int(number)) => line.i64(*number),
        Some(Cell::Text(text)) => line.string(text.as_str()),
        Some(Cell::Bool(truth)) => line.boolean(*truth),
    }
}

fn print_cell_at(line: &mut Writer, cells: &[Cell], place: usize) -> Result<(), AllocError>
    ensures { Prints result line.old line.new (data_tokens (data_of (slice_get cells.now place))) }
{
    print_cell(line, cells.get(place))
}

fn print_row(line: &mut Writer, headings: &[Heading], cells: &[Cell]) -> Result<(), AllocError>
    ensures { Prints result line.old line.new (data_tokens (row_data (named headings.now cells.now))) }
{
    line.begin_object()?;
    for heading in headings {
        line.key(heading.name.as_str())?;
        print_cell_at(line, cells, heading.place)?;
    }
    line.end_object()
}

fn print_record(line: &mut Writer, headings: &[Heading], shown: &Record) -> Result<(), AllocError>
    ensures { Prints result line.old line.new (data_tokens (listed_data (listed_of headings.now shown.now))) }
{
    line.begin_object()?;
    line.key("h")?;
    print_handle(line, shown.handle)?;
    line.key("r")?;
    print_row(line, headings, shown.row.cells())?;
    line.end_object()
}

// The records, and the bracket that closes their list.
fn print_records(
    line: &mut Writer,
    headings: &[Heading],
    records: &[Record],
) -> Result<(), AllocError>
    ensures { Prints result line.old line.new (list_tokens (listed_items (map (listed_of headings.now) records.now))) }
{
    for shown in records {
        print_record(line, headings, shown)?;
    }
    line.end_array()
}

fn print_shown(
    line: &mut Writer,
    at: u64,
    headings: &[Heading],
    one: &Record,
) -> Result<(), AllocError>
    ensures { Prints result line.old line.new (data_tokens (answer_data (shown at (listed_of headings.now one.now)))) }
{
    line.begin_object()?;
    line.key("at")?;
    line.u64(at)?;
    line.key("h")?;
    print_handle(line, one.handle)?;
    line.key("ok")?;
    line.boolean(true)?;
    line.key("r")?;
    print_row(line, headings, one.row.cells())?;
    line.end_object()
}

fn print_listed(
    line: &mut Writer,
    at: u64,
    headings: &[Heading],
    records: &[Record],
) -> Result<(), AllocError>
    ensures { Prints result line.old line.new (data_tokens (answer_data (listed at (map (listed_of headings.now) records.now)))) }
{
    line.begin_object()?;
    line.key("at")?;
    line.u64(at)?;
    line.key("ok")?;
    line.boolean(true)?;
    line.key("rs")?;
    line.begin_array()?;
    print_records(line, headings, records)?;
    line.end_object()
}
