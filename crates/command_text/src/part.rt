//! The parts of a command's text.

ghost use Rattle.table_reply.specs.Printed.{Prints, data_tokens};
ghost use Rattle.command_text.specs.Part.{part_data};

use crate::print::{print_fields, print_handle, print_handles, print_key, print_names};
use json::Writer;
use key_extract::Text;
use std::alloc::AllocError;
use table_cmd::{Field, HandleText, Value};

/// What stands under a key of a command.
#[derive(Clone, Copy)]
pub(crate) enum Part<'a> {
    /// The end, which is null.
    Null,
    True,
    /// A place.
    Count(u64),
    Text(&'a str),
    Handle(HandleText),
    Handles(&'a [HandleText]),
    Names(&'a [Text]),
    /// The values of a key.
    Key(&'a [Value]),
    Fields(&'a [Field]),
}

pub(crate) fn print_part(line: &mut Writer, part: Part) -> Result<(), AllocError>
    ensures { Prints result line.old line.new (data_tokens (part_data part.entry)) }
{
    match part {
        Part::Null => line.null(),
        Part::True => line.boolean(true),
        Part::Count(number) => line.u64(number),
        Part::Text(text) => line.string(text),
        Part::Handle(handle) => print_handle(line, handle),
        Part::Handles(handles) => print_handles(line, handles),
        Part::Names(names) => print_names(line, names),
        Part::Key(values) => print_key(line, values),
        Part::Fields(fields) => print_fields(line, fields),
    }
}
