//! What a read found, as it is told.

ghost use Rattle.std.specs.Prelude.{◌≡◌, IfOk, true};
ghost use Rattle.std.specs.List.{AllByRecursion};
ghost use Rattle.container_model.specs.Find.{is_live};
ghost use Rattle.table_reads.specs.Found.{IsIn, Reads};
ghost use Rattle.table_reads.specs.Shown.{entries_of, shown_entries};
ghost use Rattle.table_terms.specs.Step.{Step, Steps};
ghost use Rattle.table_terms.specs.Telling.{IsTold};

use crate::found::{Found, Refusal};
use container_model::Handle;
use key_extract::{Row, RowKeys};
use multi_index::MultiIndex;
use std::alloc::{AllocError, Global};
use table_records::{Records, tell_refusal};
use table_reply::{Ready, Record, Reply, Told};
use table_terms::{Outcome, refuse, refuse_memory, tell_read, tell_record, tell_records};

/// Appends the line that tells what a read found, or why it found nothing, or the memory line.
pub(crate) fn tell<'o>(
    alloc: Global,
    records: &Records,
    read: Result<Found, Refusal>,
    out: Ready<'o>,
) -> Told<'o, Outcome>
    requires { IfOk read (IsIn records.now) }
    ensures answer { (step : Step) → Reads records.now read.entry step →
        Steps result.what out.entry.out.now.bytes result.out.now.bytes records.now records.now step }
    ensures told { IsTold out.entry result }
{
    let container = records.container();
    let at = container.writes();
    let headings = records.headings();
    match read {
        Ok(Found::Number(number)) => tell_read(&Reply::Counted { at, number }, out),
        Ok(Found::Position(handle)) => tell_read(&Reply::Found { at, handle }, out),
        Ok(Found::Record(record)) => tell_record(at, headings, &record, out),
        Ok(Found::Records(handles)) => {
            let Ok(records) = shown(alloc, container, &handles) else {
                return refuse_memory(out);
            };
            tell_records(at, headings, &records, out)
        }
        Err(Refusal::Fault(why)) => refuse(why, out),
        Err(Refusal::Why(why)) => tell_refusal(records, why, out),
    }
}

// The records of live handles.
fn shown<'a>(
    alloc: Global,
    container: &'a MultiIndex<Row, RowKeys>,
    handles: &[Handle],
) -> Result<Vec<Record<'a>>, AllocError>
    requires { AllByRecursion (λ h. is_live container.now h ≡ true) handles.now }
    ensures { IfOk result (λ shown. shown_entries shown.items ≡
        entries_of container.now.entries handles.now) }
{
    let mut shown = Vec::with_capacity(alloc, handles.len())?;
    for handle in handles {
        let row = container.get(*handle).unwrap();
        shown.push(Record {
            handle: *handle,
            row,
        })?;
    }
    Ok(shown)
}
