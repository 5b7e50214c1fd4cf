//! Lines that are gathered, and appended to a disk many at a time.

ghost use Rattle.std.specs.Prelude.{◌≡◌, [], OnOk};
ghost use Rattle.table_state.specs.State.{line_of};
ghost use Rattle.table_state.specs.Writing.{Putting, gathered, failures_of_state};

use crate::fault::StateWhy;
use command_text::write_command;
use std::alloc::Global;
use table_cmd::Command;
use table_log::Disk;
use table_reply::Out;

/// How many bytes are gathered before they are appended.
const MANY: usize = 65_536;

/// Puts the line of a command behind what is gathered, and all of that on the disk once it is long.
pub(crate) fn put<D: Disk>(
    alloc: Global,
    disk: &mut D,
    lines: &mut Out,
    command: Command,
) -> Result<(), StateWhy>
    ensures puts { Putting result (gathered (D.contents disk.old) (D.size disk.old) lines.old.bytes) (gathered (D.contents disk.new) (D.size disk.new) lines.new.bytes)
        (line_of command) }
    ensures synced { D.synced disk.new ≡ D.synced disk.old }
    ensures failures { D.failures disk.new ≡ failures_of_state result (D.failures disk.old) }
{
    let written = write_command(alloc, &command, lines);
    drop(command);
    written?;
    lines.try_push(b"\n")?;
    if lines.bytes().len() < MANY {
        return Ok(());
    }
    flush(disk, lines)
}

/// Appends what is gathered.
pub(crate) fn flush<D: Disk>(disk: &mut D, lines: &mut Out) -> Result<(), StateWhy>
    ensures puts { Putting result (gathered (D.contents disk.old) (D.size disk.old) lines.old.bytes) (gathered (D.contents disk.new) (D.size disk.new) lines.new.bytes)
        [] }
    ensures all { OnOk result (lines.new.bytes ≡ []) }
    ensures synced { D.synced disk.new ≡ D.synced disk.old }
    ensures failures { D.failures disk.new ≡ failures_of_state result (D.failures disk.old) }
{
    match disk.append(lines.bytes()) {
        Ok(()) => {
            lines.clear();
            Ok(())
        }
        Err(_) => Err(StateWhy::Disk),
    }
}
