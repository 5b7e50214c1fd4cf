//! Which calls may take long.

use table_cmd::Command;

/// Whether a command may go over many records: it builds, orders, copies or drops them, or counts places along a sequence.
pub(crate) fn is_long(command: &Command) -> bool {
    match command {
        Command::Insert { position, .. } => position.is_some(),
        Command::Replace { .. }
        | Command::Modify { .. }
        | Command::ModifyKey { .. }
        | Command::Erase { .. }
        | Command::Get { .. }
        | Command::Size { .. }
        | Command::Find { .. }
        | Command::Lower { .. }
        | Command::Upper { .. }
        | Command::Next { .. }
        | Command::Prev { .. } => false,
        _ => true,
    }
}
