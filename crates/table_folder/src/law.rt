//! What a start finds while a state takes the place of a log.

ghost use Rattle.std.specs.Prelude.{◌≡◌, ◌≢◌, Some};
ghost use Rattle.checked_log.specs.declared.recovery.Link.{Link};
ghost use Rattle.table_folder.specs.Compacting.{AreDue, IsCompacting, stays};
ghost use Rattle.table_folder.specs.Disk.{Image, nothing};
ghost use Rattle.table_folder.specs.Found.{Declared, Finds, IsDue};
ghost use Rattle.table_folder.specs.StateFile.{state_file};
ghost use Rattle.table_terms.specs.Table.{TableState};

/// A law of all files: while a state takes the place of a log, a start finds the same table with the same last write. Where a crash leaves nothing but what is seen, the state
/// of what a start finds is due, as long as no line stands behind the whole ones and none of that number is there yet.
pub fn compacting_loses_nothing()
    ensures finds { (d : Declared) (t : TableState) (last : Link) (files : Image) → IsDue d t last files
        → (image : Image) → IsCompacting d.digest last (stays files) files (state_file d.types last.digest t) image → Finds d t last image }
    ensures settled { (d : Declared) (t : TableState) (last : Link) (files : Image) (finds : Finds d t last files) → finds.goes_on.recovered.behind.lines ≡ 0
        → finds.from.state ≢ Some last.number → AreDue d t last nothing (stays files) files }
{}
