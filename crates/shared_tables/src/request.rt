//! What a line asks.

ghost use Rattle.std.specs.Prelude.{◌≡◌, []};
ghost use Rattle.table_engine.specs.Lines.{short, added};
ghost use Rattle.shared_tables.specs.Requests.{Asks, AsksText};

use command_lines::{CommandFault, LineReader};
use table_cmd::Command;
use table_engine::{Cut, LineCutter, MAX_LINE, is_blank};
use table_reply::Fault;

/// What a line asks, once it is read: a command, or nothing but its fault.
#[derive(Drop)]
pub(crate) enum Request {
    Command(Command),
    Fault(Fault),
}

// What a line asks that is neither blank nor too long.
fn read_request(reader: &mut LineReader, line: &[u8]) -> Request
    ensures { AsksText line.now result }
{
    match reader.read(line) {
        Ok(command) => Request::Command(command),
        Err(CommandFault::Json) => Request::Fault(Fault::Json),
        Err(CommandFault::Command) => Request::Fault(Fault::Command),
        Err(CommandFault::Memory) => Request::Fault(Fault::Memory),
    }
}

/// Takes bytes and the newline after them, and reads the line that they end. A line that stands in the bytes as a whole is read
/// where it stands.
pub(crate) fn take_line(
    reader: &mut LineReader,
    cutter: &mut LineCutter,
    line: &[u8],
) -> Option<Request>
    ensures asks { Asks (added line.now cutter.old.unfinished) result }
    ensures ended { cutter.new.unfinished ≡ short [] }
{
    if !cutter.is_empty() || line.len() > MAX_LINE {
        cutter.extend(line);
        return end_line(reader, cutter);
    }
    if is_blank(line) {
        return None;
    }
    Some(read_request(reader, line))
}

/// Takes a newline, and reads the line that it ends.
pub(crate) fn end_line(reader: &mut LineReader, cutter: &mut LineCutter) -> Option<Request>
    ensures asks { Asks cutter.old.unfinished result }
    ensures ended { cutter.new.unfinished ≡ short [] }
{
    match cutter.feed(b'\n') {
        Cut::Unended | Cut::Blank => None,
        Cut::Long => Some(Request::Fault(Fault::Line)),
        Cut::Line => Some(read_request(reader, cutter.line())),
    }
}
