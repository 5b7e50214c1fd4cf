//! Prints the writes of a table's log.

use crate::fault::Fault;
use crate::files::{files_of, told};
use crate::folder::taken_there;
use crate::logs::{LogDisk, find_log};
use crate::schema::{schema_of, table_named};
use keeper_words::OneTable;
use std::io::Write;
use table_folder::{FileName, FoundLog};
use table_log::Disk;

/// How many bytes are read at a time.
const PIECE: usize = 65_536;

/// Prints the writes of a table's log, a line each, and says behind which write they begin where that is not the first. Nothing is
/// changed.
pub(crate) fn export(rt: &HostRuntime, asked: &OneTable<'_>) -> Result<(), Fault> {
    let schema = schema_of(rt, asked.schema)?;
    let table = table_named(rt, &schema, asked.table)?;
    let folder = taken_there(rt, asked.folder)?;
    let FoundLog {
        mut disk,
        about,
        ..
    } = find_log(rt, &folder, table)?;
    let state = about.base.state();
    let files = files_of(rt, &folder, table.name());
    let path = files.path(FileName::Log(state))?;
    match state {
        Some(number) => {
            let _ = eprintln!(rt; "behind: {path}: the log begins behind write {number}");
        }
        None => match table_folder::is_there(&files, FileName::Log(None)) {
            Ok(true) => {}
            Ok(false) => return Err(Fault::Missing(path)),
            Err(fault) => return Err(told(&files, fault)),
        },
    }
    print_all(rt, &mut disk, path)
}

// Prints all bytes of a disk.
fn print_all(rt: &HostRuntime, disk: &mut LogDisk, path: String) -> Result<(), Fault> {
    let mut out = rt.stdout();
    let mut piece = vec![in rt.alloc(); 0u8; PIECE]?;
    let mut at = 0u64;
    for _ in 0..u64::MAX {
        if at >= disk.size() {
            break;
        }
        let Ok(count) = disk.read(at, &mut piece) else {
            return Err(Fault::File(path));
        };
        let (read, _) = piece.split_at(count);
        if out.write_all(read).is_err() {
            return Err(Fault::Output);
        }
        at = at.saturating_add(count as u64);
    }
    Ok(())
}
