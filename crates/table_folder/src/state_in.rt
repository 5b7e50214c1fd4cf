//! The state that a log begins behind, as a start finds it.

ghost use Rattle.std.specs.Prelude.{◌≡◌, ◌≢◌, ◌<◌, ◌^◌, ◌++◌, ℕ, List, Option, Some, IfErr, IfOk, length};
ghost use Rattle.table_folder.specs.Found.{Beginning, BeginsWith, IsState, declared_as};
ghost use Rattle.table_folder.specs.Seen.{Answers, IsInterruption};
ghost use Rattle.table_folder.specs.StateFile.{first_line as spec_first_line, signed};
ghost use Rattle.table_folder.specs.StateIn.{IsFileOf, IsReadOf, beginning_of, part};
ghost use Rattle.table_folder.specs.declared.name.FileName.TheVariants.{State as StateName};
ghost use Rattle.table_state.specs.Standing.{CanStand};
ghost use Rattle.table_state.specs.State.{state_text};
ghost use Rattle.table_terms.specs.Table.{IsOfSameTable, TableState};

use crate::base::Base;
use crate::fault::FolderFault;
use crate::folder::Folder;
use crate::frame::first_line;
use crate::framing::{Framed, digest_in, frame_of};
use crate::name::FileName;
use crate::window::Window;
use checked_log::Link;
use file_disk::{FileDisk, LogFile};
use std::alloc::Global;
use table_log::Disk;
use table_schema::TableSpec;
use table_state::{StateWhy, read_state};
use table_step::Table;

/// A state that is open: what stands between its first line and its last, how many bytes these are, and the digest of its last write.
#[derive(Drop)]
struct OpenState<L: LogFile> {
    inner: Window<L>,
    size: u64,
    digest: u64,
}

/// What a table begins with: what its log begins behind, and the table of a state, where there is one.
#[derive(Drop)]
pub struct Begin {
    pub base: Base,
    pub table: Option<Table>,
}

// Opens a state's file of so many bytes. It has to end with its digest, and to have these types.
fn open_file<L: LogFile>(
    alloc: Global,
    file: L,
    size: u64,
    types: &str,
) -> Result<OpenState<L>, FolderFault>
    requires { (bytes : List ℕ) → L.contents file ≡ Some bytes → size ≡ length bytes }
    ensures file { IfOk result (λ state. L.contents state.inner.file ≡ L.contents file) }
    ensures opened { IfOk result (λ state. (bytes : List ℕ) → L.contents file ≡ Some bytes
        → IsFileOf types.now bytes state.digest (part state.inner.first state.inner.end bytes) × (state.size ≡ length (part state.inner.first state.inner.end bytes))) }
    ensures fits { IfOk result (λ state. state.digest < 2 ^ 64) }
    ensures refused { IfErr result (λ fault. (digest : ℕ) (inner : List ℕ) → digest < 2 ^ 64
        → L.contents file ≡ Some (signed (spec_first_line types.now digest ++ inner)) → IsInterruption fault) }
{
    let first = first_line(alloc, types, 0)?.as_bytes().len() as u64;
    let mut disk = FileDisk::new(file, size);
    let framed = match frame_of(alloc, &mut disk, first) {
        Ok(framed) => framed,
        Err(why) => return Err(FolderFault::of_reading(why, FileName::State)),
    };
    let Some(Framed { line, before }) = framed else {
        return Err(FolderFault::State);
    };
    let Some(digest) = digest_in(alloc, line.as_slice(), types)? else {
        return Err(FolderFault::StateLine(1));
    };
    Ok(OpenState {
        inner: Window::new(disk.into_file(), first, before),
        size: before - first,
        digest,
    })
}

/// The table of the state that a disk has, before which so many lines stand.
pub(crate) fn table_of<D: Disk>(
    alloc: Global,
    table: &TableSpec,
    disk: &mut D,
    lines: u64,
) -> Result<Table, FolderFault>
    ensures read { IfOk result (λ read. (bytes : List ℕ) → D.contents disk.old ≡ Some bytes → bytes ≡ state_text read) }
    ensures same { IfOk result (λ read. IsOfSameTable read.shape table.now) }
    ensures recalls { (t : TableState) → CanStand t → IsOfSameTable t.shape table.now → D.contents disk.old ≡ Some (state_text t) → Answers (λ read. read ≡ t) result }
{
    match read_state(alloc, table, disk) {
        Ok(read) => Ok(read),
        Err(StateWhy::Line(number)) => Err(FolderFault::StateLine(number.saturating_add(lines))),
        Err(StateWhy::Table) => Err(FolderFault::State),
        Err(StateWhy::Memory) => Err(FolderFault::Memory),
        Err(StateWhy::Disk) => Err(FolderFault::File(FileName::State)),
    }
}

// What a table begins with whose state's file has so many bytes.
fn begin_at<L: LogFile>(
    alloc: Global,
    table: &TableSpec,
    types: &str,
    declared: u64,
    file: L,
    size: u64,
) -> Result<Begin, FolderFault>
    requires { (bytes : List ℕ) → L.contents file ≡ Some bytes → size ≡ length bytes }
    ensures read { IfOk result (λ begin. (bytes : List ℕ) → L.contents file ≡ Some bytes → IsReadOf (declared_as table.now types.now declared) (Some bytes) begin.base begin.table) }
    ensures finds { (b : Beginning) (bytes : List ℕ) → L.contents file ≡ Some bytes → IsState (declared_as table.now types.now declared) bytes b
        → Answers (λ begin. beginning_of table.now begin.base begin.table ≡ b) result }
    ensures declared { IfOk result (λ begin. begin.base.declared ≡ declared) }
{
    let OpenState {
        inner,
        size,
        digest,
    } = open_file(alloc, file, size, types)?;
    let mut disk = FileDisk::new(inner, size);
    let read = match table_of(alloc, table, &mut disk, 1) {
        Ok(read) => read,
        Err(fault) => return Err(fault),
    };
    let number = read.records().container().writes();
    Ok(Begin {
        base: Base::empty(declared).at(Link { number, digest }),
        table: Some(read),
    })
}

/// Reads the state of a table, where there is one. O(bytes).
pub fn read_begin<F: Folder>(
    alloc: Global,
    folder: &F,
    table: &TableSpec,
    types: &str,
    declared: u64,
) -> Result<Begin, FolderFault>
    ensures read { IfOk result (λ begin. (x : Option (List ℕ)) → F.seen folder.now StateName ≡ Some x → IsReadOf (declared_as table.now types.now declared) x begin.base begin.table) }
    ensures finds { (b : Beginning) (x : Option (List ℕ)) → F.seen folder.now StateName ≡ Some x → BeginsWith (declared_as table.now types.now declared) x b
        → Answers (λ begin. beginning_of table.now begin.base begin.table ≡ b) result }
    ensures declared { IfOk result (λ begin. begin.base.declared ≡ declared) }
{
    match folder.look(FileName::State) {
        Ok(Some((file, size))) => begin_at(alloc, table, types, declared, file, size),
        Ok(None) => Ok(Begin {
            base: Base::empty(declared),
            table: None,
        }),
        Err(error) => Err(FolderFault::of_file(&error, FileName::State)),
    }
}
