//! The end of a log, which a start writes again.

ghost use Rattle.std.specs.Prelude.{◌≡◌, ◌+◌, ◌-◌, ◌≤◌, ◌<◌, ◌^◌, OnOk, length};
ghost use Rattle.checked_disk.specs.Files.{Writes};
ghost use Rattle.checked_disk.specs.Stands.{RewriteLasts};

use crate::files::LogFiles;
use crate::held::Held;
use table_log::DiskFailed;

/// Writes the bytes from a place on again, the same at the same places, and no others. It is left to a sync to make sure of them.
pub(crate) fn rewrite_from<F: LogFiles>(
    disk: &mut Held<F>,
    start: u64,
    piece: &mut [u8],
) -> Result<(), DiskFailed>
    ensures contents { F.contents disk.new.files ≡ F.contents disk.old.files }
    ensures size { disk.new.size ≡ disk.old.size }
    ensures mark { F.mark disk.new.files ≡ F.mark disk.old.files }
    ensures settles { F.settles disk.new.files ≡ F.settles disk.old.files }
    ensures puts { F.puts disk.new.files ≡ F.puts disk.old.files }
    ensures places { OnOk result (Writes (F.written disk.old.files) (F.written disk.new.files) start (disk.old.size - start)) }
    ensures some { Writes (F.written disk.old.files) (F.written disk.new.files) start 0 }
    ensures lasts { RewriteLasts F.contents F.may_leave F.moment F.left_since disk.old.files disk.new.files }
{
    let end = disk.size;
    let mut at = start;
    while at < end {
        let count = disk.read(at, piece)?;
        if count == 0 {
            return Err(DiskFailed);
        }
        let (front, _) = piece.split_at(count);
        disk.write(at, front)?;
        at += count as u64;
    }
    Ok(())
}
