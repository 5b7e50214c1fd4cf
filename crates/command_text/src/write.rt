//! Writes a command.

ghost use Rattle.std.specs.Prelude.{◌≡◌, [], IfOk, OnErr, OnOk};
ghost use Rattle.table_reply.specs.Buffer.{AddsOrNot};
ghost use Rattle.table_reply.specs.Printed.{Prints, data_tokens};
ghost use Rattle.command_text.specs.Text.{command_data, command_text};

use crate::object::print_object;
use crate::part::Part;
use crate::parts::{
    add_of, by_of, columns_of, handle_of, handles_of, high_excluded_of, high_included_of, index_of,
    key_of, low_excluded_of, low_included_of, new_kind_of, nth_of, op_name, place_of, rollback_of,
    row_of, set_of, unique_of,
};
use json::Writer;
use std::alloc::{AllocError, Global};
use std::mem::replace;
use table_cmd::Command;
use table_reply::{Out, OutOfRoom};

/// How many bytes a text has room for at first.
const ROOM: usize = 128;

/// Puts the canonical text of a command, without a newline, in place of what stands in a buffer, whose memory is used again. At an
/// `Err` the buffer is empty: memory was refused. O(length of the text).
pub fn set_text(buffer: &mut Vec<u8>, command: &Command) -> Result<(), AllocError>
    ensures all { OnOk result (buffer.new.items ≡ command_text command.now) }
    ensures none { OnErr result (buffer.new.items ≡ []) }
{
    let none = Vec::new(*buffer.allocator());
    let mut room = replace(buffer, none);
    room.clear();
    let mut line = Writer::new(room);
    print_command(&mut line, command)?;
    *buffer = line.into_inner();
    Ok(())
}

/// The canonical text of a command, without a newline, in memory of its own. O(length of the text).
pub fn canonical_text(alloc: Global, command: &Command) -> Result<Vec<u8>, AllocError>
    ensures { IfOk result (λ text. text.items ≡ command_text command.now) }
{
    let mut text = Vec::with_capacity(alloc, ROOM)?;
    set_text(&mut text, command)?;
    Ok(text)
}

/// Appends the canonical text of a command, without a newline. At an `Err` nothing is appended: memory was refused.
/// O(length of the text).
pub fn write_command(alloc: Global, command: &Command, out: &mut Out) -> Result<(), OutOfRoom>
    ensures { AddsOrNot result out.old out.new (command_text command.now) }
{
    match canonical_text(alloc, command) {
        Ok(text) => out.try_push(&text),
        Err(_) => Err(OutOfRoom),
    }
}

// The keys stand in ascending order.
fn print_command(line: &mut Writer, command: &Command) -> Result<(), AllocError>
    ensures { Prints result line.old line.new (data_tokens (command_data command.now)) }
{
    print_object(
        line,
        &[
            ("add", add_of(command)),
            ("by", by_of(command)),
            ("ge", low_included_of(command)),
            ("gt", low_excluded_of(command)),
            ("h", handle_of(command)),
            ("hs", handles_of(command)),
            ("i", index_of(command)),
            ("k", key_of(command)),
            ("key", columns_of(command)),
            ("kind", new_kind_of(command)),
            ("le", high_included_of(command)),
            ("lt", high_excluded_of(command)),
            ("n", nth_of(command)),
            ("op", Some(Part::Text(op_name(command)))),
            ("p", place_of(command)),
            ("r", row_of(command)),
            ("rollback", rollback_of(command)),
            ("set", set_of(command)),
            ("t", Some(Part::Text(command.table()))),
            ("unique", unique_of(command)),
        ],
    )
}
