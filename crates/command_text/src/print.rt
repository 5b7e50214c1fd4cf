//! The values of a command, by the writer that `serde_json` prints with.

ghost use Rattle.std.specs.Prelude.{◌∷◌, []};
ghost use Rattle.json.specs.Token.{begin_array, end_array, key};
ghost use Rattle.command_text.specs.Text.{handle_data, handles_data, names_data, key_data, fields_data, value_data};
ghost use Rattle.table_reply.specs.Printed.{Prints, data_tokens};

use json::Writer;
use key_extract::{Cell, Text};
use std::alloc::AllocError;
use table_cmd::{Field, HandleText, Value};
use table_reply::spelling;

pub(crate) fn print_handle(line: &mut Writer, handle: HandleText) -> Result<(), AllocError>
    ensures { Prints result line.old line.new (data_tokens (handle_data handle)) }
{
    match handle {
        HandleText::Handle(handle) => line.string(spelling(handle).as_str()),
        HandleText::Bad => line.string(""),
    }
}

pub(crate) fn print_handles(line: &mut Writer, handles: &[HandleText]) -> Result<(), AllocError>
    ensures { Prints result line.old line.new (data_tokens (handles_data handles.now)) }
{
    line.begin_array()?;
    for handle in handles {
        print_handle(line, *handle)?;
    }
    line.end_array()
}

pub(crate) fn print_names(line: &mut Writer, names: &[Text]) -> Result<(), AllocError>
    ensures { Prints result line.old line.new (data_tokens (names_data names.now)) }
{
    line.begin_array()?;
    for name in names {
        line.string(name.as_str())?;
    }
    line.end_array()
}

pub(crate) fn print_key(line: &mut Writer, values: &[Value]) -> Result<(), AllocError>
    ensures { Prints result line.old line.new (data_tokens (key_data values.now)) }
{
    line.begin_array()?;
    for value in values {
        print_value(line, value)?;
    }
    line.end_array()
}

pub(crate) fn print_fields(line: &mut Writer, fields: &[Field]) -> Result<(), AllocError>
    ensures { Prints result line.old line.new (data_tokens (fields_data fields.now)) }
{
    line.begin_object()?;
    for field in fields {
        print_field(line, field)?;
    }
    line.end_object()
}

fn print_field(line: &mut Writer, field: &Field) -> Result<(), AllocError>
    ensures { Prints result line.old line.new (key field.now.name ∷ data_tokens (value_data field.now.value)) }
{
    line.key(field.name.as_str())?;
    print_value(line, &field.value)
}

fn print_value(line: &mut Writer, value: &Value) -> Result<(), AllocError>
    ensures { Prints result line.old line.new (data_tokens (value_data value.now)) }
{
    match value {
        Value::Cell(Cell::Null) => line.null(),
        Value::Cell(Cell::Int(number)) => line.i64(*number),
        Value::Cell(Cell::Text(text)) => line.string(text.as_str()),
        Value::Cell(Cell::Bool(truth)) => line.boolean(*truth),
        Value::Other => print_nothing(line),
    }
}

// An array of nothing.
fn print_nothing(line: &mut Writer) -> Result<(), AllocError>
    ensures { Prints result line.old line.new (begin_array ∷ end_array ∷ []) }
{
    line.begin_array()?;
    line.end_array()
}
