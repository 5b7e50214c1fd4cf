//! The state and the log of a table as an older program left them.

ghost use Rattle.std.specs.Prelude.{◌≡◌, ◌≢◌, ℕ, List, Option, Some, None, IfOk, false, length};
ghost use Rattle.table_folder.specs.StateIn.{part};
ghost use Rattle.table_folder.specs.Older.{IsLeftBy, number_of};
ghost use Rattle.table_folder.specs.declared.name.FileName.TheVariants.{PlainLog};

use crate::ended::is_later;
use crate::fault::FolderFault;
use crate::folder::Folder;
use crate::frame::{DIGEST, FRONT, plain_line};
use crate::name::FileName;
use crate::parts::read_part;
use crate::plain::{plain_begins, refuse_longer};
use crate::spent::first_of;
use crate::state_in::{read_begin, table_of};
use crate::window::Window;
use file_disk::{FileDisk, LogFile};
use std::alloc::Global;
use table_log::{Disk, Replayed, replay};
use table_schema::TableSpec;
use table_state::StateWhy;
use table_step::Table;

/// What form a state has.
#[derive(Clone, Copy, Debug, PartialEq, Eq)]
pub(crate) enum Form {
    /// There is none.
    Absent,
    /// Its first line tells a digest.
    New,
    /// It is one of an older program.
    Plain,
}

/// What the files of an older program leave.
#[derive(Drop)]
pub enum Older {
    /// The table.
    Table(Table),
    /// The state of this number, which is in the new form already.
    State(u64),
}

impl Older {
    /// The number of the state that takes the place of these files.
    pub fn number(&self) -> u64
        ensures { result ≡ number_of self.now }
    {
        match self {
            Older::Table(table) => table.records().container().writes(),
            Older::State(number) => *number,
        }
    }
}

// Whether a disk begins with these bytes.
fn begins_with<D: Disk>(alloc: Global, disk: &mut D, front: &[u8]) -> Result<bool, StateWhy>
    ensures contents { D.contents disk.new ≡ D.contents disk.old }
    ensures size { D.size disk.new ≡ D.size disk.old }
{
    let size = front.len() as u64;
    if disk.size() < size {
        return Ok(false);
    }
    let found = read_part(alloc, disk, 0, size)?;
    Ok(found.as_slice() == front)
}

// Whether the state that a disk has begins with these bytes.
fn state_begins<D: Disk>(alloc: Global, disk: &mut D, front: &[u8]) -> Result<bool, FolderFault>
    ensures contents { D.contents disk.new ≡ D.contents disk.old }
    ensures size { D.size disk.new ≡ D.size disk.old }
{
    match begins_with(alloc, disk, front) {
        Ok(is) => Ok(is),
        Err(why) => Err(FolderFault::of_reading(why, FileName::State)),
    }
}

// The form of a state's file of so many bytes.
fn form_in<L: LogFile>(alloc: Global, file: L, size: u64, types: &str) -> Result<Form, FolderFault>
    requires { (bytes : List ℕ) → L.contents file ≡ Some bytes → size ≡ length bytes }
{
    let front = format!(in alloc; "{types}{DIGEST}")?;
    let mut disk = FileDisk::new(file, size);
    if state_begins(alloc, &mut disk, front.as_bytes())? {
        Ok(Form::New)
    } else {
        Ok(Form::Plain)
    }
}

// The form of the state.
fn form_of<F: Folder>(alloc: Global, folder: &F, types: &str) -> Result<Form, FolderFault> {
    match folder.look(FileName::State) {
        Ok(Some((file, size))) => form_in(alloc, file, size, types),
        Ok(None) => Ok(Form::Absent),
        Err(error) => Err(FolderFault::of_file(&error, FileName::State)),
    }
}

/// A state of an older program that is open: what of it stands behind its types, how many bytes these are, and how many lines stand before.
#[derive(Drop)]
struct OpenPlain<L: LogFile> {
    inner: Window<L>,
    size: u64,
    lines: u64,
}

// Opens a state's file of so many bytes. Its types have to be these, where it has any.
fn open_plain<L: LogFile>(
    alloc: Global,
    file: L,
    size: u64,
    types: &str,
) -> Result<OpenPlain<L>, FolderFault>
    requires { (bytes : List ℕ) → L.contents file ≡ Some bytes → size ≡ length bytes }
    ensures file { IfOk result (λ state. L.contents state.inner.file ≡ L.contents file) }
    ensures size { IfOk result (λ state. (bytes : List ℕ) → L.contents file ≡ Some bytes → state.size ≡ length (part state.inner.first state.inner.end bytes)) }
{
    let line = plain_line(alloc, types)?;
    let first = line.as_bytes().len() as u64;
    let mut disk = FileDisk::new(file, size);
    if state_begins(alloc, &mut disk, line.as_bytes())? {
        return Ok(OpenPlain {
            inner: Window::new(disk.into_file(), first, size),
            size: size.saturating_sub(first),
            lines: 1,
        });
    }
    if state_begins(alloc, &mut disk, FRONT.as_bytes())? {
        return Err(FolderFault::StateLine(1));
    }
    Ok(OpenPlain {
        inner: Window::new(disk.into_file(), 0, size),
        size,
        lines: 0,
    })
}

// The table of a state's file of so many bytes.
fn table_in<L: LogFile>(
    alloc: Global,
    table: &TableSpec,
    types: &str,
    file: L,
    size: u64,
) -> Result<Table, FolderFault>
    requires { (bytes : List ℕ) → L.contents file ≡ Some bytes → size ≡ length bytes }
{
    let OpenPlain { inner, size, lines } = open_plain(alloc, file, size, types)?;
    let mut disk = FileDisk::new(inner, size);
    table_of(alloc, table, &mut disk, lines)
}

// The table of the state, where there is one.
fn read_plain<F: Folder>(
    alloc: Global,
    folder: &F,
    table: &TableSpec,
    types: &str,
) -> Result<Option<Table>, FolderFault> {
    match folder.look(FileName::State) {
        Ok(Some((file, size))) => Ok(Some(table_in(alloc, table, types, file, size)?)),
        Ok(None) => Ok(None),
        Err(error) => Err(FolderFault::of_file(&error, FileName::State)),
    }
}

// Refuses logs behind a later state than this one, and those before it that go on behind it.
fn refuse_others<F: Folder>(
    alloc: Global,
    folder: &F,
    state: Option<u64>,
) -> Result<(), FolderFault> {
    let begins = plain_begins(alloc, folder)?;
    let mut rest = begins.as_slice();
    while let Some((begin, behind)) = first_of(rest) {
        if is_later(begin, state) {
            return Err(FolderFault::Behind(FileName::PlainLog(begin)));
        }
        if begin != state {
            refuse_longer(alloc, folder, begin, state.unwrap_or(0))?;
        }
        rest = behind;
    }
    Ok(())
}

// Refuses logs that go on behind the write of this number.
fn refuse_all_longer<F: Folder>(alloc: Global, folder: &F, number: u64) -> Result<(), FolderFault> {
    let begins = plain_begins(alloc, folder)?;
    let mut rest = begins.as_slice();
    while let Some((begin, behind)) = first_of(rest) {
        refuse_longer(alloc, folder, begin, number)?;
        rest = behind;
    }
    Ok(())
}

// The table that a log leaves of the one that it begins with. An absent log has no lines.
fn replay_plain<F: Folder>(
    alloc: Global,
    folder: &F,
    start: Table,
    begin: Option<u64>,
) -> Result<Table, FolderFault>
    ensures { IfOk result (λ table. (x : Option (List ℕ)) → F.seen folder.now (PlainLog begin) ≡ Some x → IsLeftBy start x table) }
{
    let name = FileName::PlainLog(begin);
    let (file, size) = match folder.look(name) {
        Ok(Some(found)) => found,
        Ok(None) => return Ok(start),
        Err(error) => return Err(FolderFault::of_file(&error, name)),
    };
    let mut disk = FileDisk::new(file, size);
    match replay(alloc, start, &mut disk) {
        Ok(Replayed { table, torn: _ }) => Ok(table),
        Err(why) => Err(FolderFault::of_loading(why, name)),
    }
}

// The table that the log leaves of the state, or of the empty table.
fn load_plain<F: Folder>(
    alloc: Global,
    folder: &F,
    table: &TableSpec,
    types: &str,
) -> Result<Table, FolderFault> {
    let (start, begin) = match read_plain(alloc, folder, table, types)? {
        Some(begun) => {
            let number = begun.records().container().writes();
            (begun, Some(number))
        }
        None => (Table::new(alloc, table)?, None),
    };
    refuse_others(alloc, folder, begin)?;
    replay_plain(alloc, folder, start, begin)
}

// The number of a state in the new form, beside which older logs are still there. They have to end with it or before.
fn half_taken<F: Folder>(
    alloc: Global,
    folder: &F,
    table: &TableSpec,
    types: &str,
    declared: u64,
) -> Result<u64, FolderFault> {
    let number = read_begin(alloc, folder, table, types, declared)?
        .base
        .link
        .number;
    refuse_all_longer(alloc, folder, number)?;
    Ok(number)
}

// Whether a log of an older program is there.
fn has_plain<F: Folder>(alloc: Global, folder: &F) -> Result<bool, FolderFault>
    ensures { IfOk result (λ has. has ≡ false → (begin : Option ℕ) (bytes : List ℕ) → F.seen folder.now (PlainLog begin) ≢ Some (Some bytes)) }
{
    let begins = plain_begins(alloc, folder)?;
    match first_of(begins.as_slice()) {
        Some(_) => Ok(true),
        None => Ok(false),
    }
}

/// What the files of a table leave, if they are those of an older program. A log of one that is there is never passed over.
pub fn find_older<F: Folder>(
    alloc: Global,
    folder: &F,
    table: &TableSpec,
    types: &str,
    declared: u64,
) -> Result<Option<Older>, FolderFault>
    ensures { IfOk result (λ found. found ≡ None → (begin : Option ℕ) (bytes : List ℕ) → F.seen folder.now (PlainLog begin) ≢ Some (Some bytes)) }
{
    let has_logs = has_plain(alloc, folder)?;
    match (form_of(alloc, folder, types)?, has_logs) {
        (Form::New, true) => Ok(Some(Older::State(half_taken(
            alloc, folder, table, types, declared,
        )?))),
        (Form::New | Form::Absent, false) => Ok(None),
        (Form::Absent, true) | (Form::Plain, _) => Ok(Some(Older::Table(load_plain(
            alloc, folder, table, types,
        )?))),
    }
}
