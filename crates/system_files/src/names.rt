//! The names of a table's files in a folder.

ghost use Rattle.std.specs.Prelude.{◌≡◌, IfOk, string_bytes};
ghost use Rattle.system_files.specs.Names.{file_path, log_path, path_of};

use std::alloc::{AllocError, Global};
use table_folder::FileName;

/// How the name of a log ends.
pub(crate) const LOG: &str = ".log";

/// How the name of a log of an older program ends.
pub(crate) const PLAIN_LOG: &str = ".jsonl";

/// How that name ends once the log is left.
const PLAIN_LOG_LEFT: &str = ".jsonl.old";

// The path of a log that ends so.
fn numbered(
    alloc: Global,
    folder: &str,
    table: &str,
    number: Option<u64>,
    end: &str,
) -> Result<String, AllocError>
    ensures { IfOk result (λ path. string_bytes path ≡ log_path folder.now table.now number end.now) }
{
    match number {
        Some(number) => format!(in alloc; "{folder}/{table}.{number}{end}"),
        None => format!(in alloc; "{folder}/{table}{end}"),
    }
}

// The path of a file whose name ends so.
fn named(alloc: Global, folder: &str, table: &str, end: &str) -> Result<String, AllocError>
    ensures { IfOk result (λ path. string_bytes path ≡ file_path folder.now table.now end.now) }
{
    format!(in alloc; "{folder}/{table}.{end}")
}

/// The path of a table's file in a folder.
pub(crate) fn path_of(
    alloc: Global,
    folder: &str,
    table: &str,
    name: FileName,
) -> Result<String, AllocError>
    ensures { IfOk result (λ path. string_bytes path ≡ path_of folder.now table.now name) }
{
    match name {
        FileName::Declaration => named(alloc, folder, table, "schema"),
        FileName::DeclarationDraft => named(alloc, folder, table, "schema.part"),
        FileName::State => named(alloc, folder, table, "state"),
        FileName::StateDraft => named(alloc, folder, table, "state.new"),
        FileName::Log(number) => numbered(alloc, folder, table, number, LOG),
        FileName::LogDraft => named(alloc, folder, table, "log.new"),
        FileName::Mark => named(alloc, folder, table, "mark"),
        FileName::PlainLog(number) => numbered(alloc, folder, table, number, PLAIN_LOG),
        FileName::PlainLogLeft(number) => numbered(alloc, folder, table, number, PLAIN_LOG_LEFT),
    }
}
