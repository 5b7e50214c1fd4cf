//! Whether a table may be served.

ghost use Rattle.std.specs.Prelude.{◌≡◌, ℕ, List, Option, Some, IfErr, IfOk};
ghost use Rattle.checked_disk.specs.Kept.{IsRecovered};
ghost use Rattle.checked_disk.specs.Plain.{plain_text};
ghost use Rattle.checked_disk.specs.Resumed.{IsKeptOf};
ghost use Rattle.checked_log.specs.declared.recovery.Link.{Link};
ghost use Rattle.table_folder.specs.Base.{state_in};
ghost use Rattle.table_folder.specs.Compacting.{AreEarlier, AreSpent};
ghost use Rattle.table_folder.specs.Deciding.{IsFoundIn, start_of};
ghost use Rattle.table_folder.specs.Disk.{Image};
ghost use Rattle.table_folder.specs.Found.{Finds, declared_as};
ghost use Rattle.table_folder.specs.Opened.{bytes_in};
ghost use Rattle.table_folder.specs.Seen.{IsInterruption, IsSeen};
ghost use Rattle.table_folder.specs.Settling.{IsAbout};
ghost use Rattle.table_folder.specs.declared.name.FileName.TheVariants.{Log as LogName};
ghost use Rattle.table_log.specs.Log.{replayed};
ghost use Rattle.table_terms.specs.Table.{TableState};

use crate::about::About;
use crate::fault::FolderFault;
use crate::folder::Folder;
use crate::found_log::{FoundLog, find_log};
use crate::name::FileName;
use std::alloc::{AllocError, Global};
use table_log::{Replayed, replay};
use table_schema::TableSpec;
use table_step::Table;

/// A table that is decided: it may be served, once its log is settled.
#[derive(Drop)]
pub struct Decided {
    pub table: Table,
    pub about: About,
}

// The table of a state, or else the empty one.
fn table_before(alloc: Global, spec: &TableSpec, begun: Option<Table>) -> Result<Table, AllocError>
    ensures { IfOk result (λ table. table ≡ start_of spec.now begun) }
{
    match begun {
        Some(begun) => Ok(begun),
        None => Table::new(alloc, spec),
    }
}

/// Decides whether a table may be served, and changes nothing. The logs from before that can't go are put to those that are left.
pub fn decide<F: Folder>(
    alloc: Global,
    folder: &F,
    table: &TableSpec,
    types: &str,
    declared: u64,
    left: &mut Vec<Option<u64>>,
) -> Result<Decided, FolderFault>
    ensures finds { IfOk result (λ decided. (t : TableState) (last : Link) (files : Image) → IsSeen (F.seen folder.now) files → Finds (declared_as table.now types.now declared) t last files
        → (decided.table ≡ t) × (decided.about.recovered.last ≡ last)) }
    ensures found { IfOk result (λ decided. (files : Image) → IsSeen (F.seen folder.now) files
        → (begun : Option TableState) × IsFoundIn (declared_as table.now types.now declared) files decided.about.base begun decided.about.marks decided.about.recovered
        × (replayed (start_of table.now begun) (plain_text decided.about.base.link (bytes_in (files (LogName (state_in decided.about.base))))) ≡ Some decided.table)) }
    ensures declared { IfOk result (λ decided. decided.about.base.declared ≡ declared) }
    ensures kept { IfOk result (λ decided. (x : Option (List ℕ)) → F.seen folder.now (LogName (state_in decided.about.base)) ≡ Some x → IsKeptOf (bytes_in x) decided.about.kept) }
    ensures goes_on { IfOk result (λ decided. (decided.about.kept.base ≡ decided.about.base.link) × (decided.about.kept.next ≡ decided.about.marks.next)
        × IsRecovered decided.about.recovered decided.about.kept.log) }
    ensures about { IfOk result (λ decided. (files : Image) → IsSeen (F.seen folder.now) files → IsAbout (bytes_in (files (LogName (state_in decided.about.base)))) decided.about) }
    ensures spent { IfOk result (λ decided. AreSpent declared decided.about.base.link (state_in decided.about.base) (F.seen folder.now) decided.about.spent.items) }
    ensures earlier { IfOk result (λ decided. (files : Image) → IsSeen (F.seen folder.now) files → AreEarlier declared decided.about.base.link (state_in decided.about.base) files) }
    ensures refused { IfErr result (λ fault. (t : TableState) (last : Link) (files : Image) → IsSeen (F.seen folder.now) files → Finds (declared_as table.now types.now declared) t last files
        → IsInterruption fault) }
{
    let FoundLog {
        mut disk,
        about,
        table: begun,
    } = find_log(alloc, folder, table, types, declared, left)?;
    let name = FileName::Log(about.base.state());
    let begun = table_before(alloc, table, begun)?;
    match replay(alloc, begun, &mut disk) {
        Ok(Replayed { table, torn: _ }) => {
            let kept = disk.kept();
            Ok(Decided {
                table,
                about: About { kept, ..about },
            })
        }
        Err(why) => Err(FolderFault::of_loading(why, name)),
    }
}
