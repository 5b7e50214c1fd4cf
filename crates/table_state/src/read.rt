//! Reads the state of a table.

ghost use Rattle.std.specs.Prelude.{◌≡◌, ◌<◌, ◌++◌, [], ℕ, List, Some, IfErr, IfOk, OnOk, length, map, option_map};
ghost use Rattle.command_lines.specs.Fits.{CommandFits};
ghost use Rattle.table_schema.specs.Defined.{IsFault, IsNewIndex};
ghost use Rattle.table_state.specs.Parts.{EntriesFit, EntryFits, IndexFits, IndicesFit, OrdersFit, cells_from, count_in, entry_in, handles_in, index_in, order_in};
ghost use Rattle.table_state.specs.Reading.{IsWithin, ReadsOn, Recalls, Seeks, Takes, left_of};
ghost use Rattle.table_state.specs.Standing.{CanStand};
ghost use Rattle.table_state.specs.State.{columns_command, count_command, index_command, line_of, lines_text, order_command, order_commands, record_command, state_text};
ghost use Rattle.table_records.specs.Restored.{restored_table};
ghost use Rattle.table_state.specs.Writing.{IsInterruption, failures_of_state};
ghost use Rattle.table_terms.specs.Table.{IsOfSameTable};
ghost use Rattle.table_terms.specs.Values.{cell_for};
ghost use Rattle.std.specs.Option.{option_copied};

use crate::fault::StateWhy;
use crate::parts::{columns_command, count_command, index_command, order_command, record_command};
use crate::source::Source;
use container_model::{Entry, Handle};
use key_extract::{Cell, Row, Text};
use std::alloc::{AllocError, Global};
use table_cmd::{Command, HandleText, Names, Value};
use table_log::Disk;
use table_schema::{Column, DefineFault, IndexSpec, TableSpec, define_index};
use table_step::{Saved, Table, Unrestorable};
use table_terms::can_hold;

// The number that a command gives under a name.
fn count_in(command: &Command) -> Option<u64>
    ensures { result ≡ count_in command.now }
{
    match command {
        Command::Nth { place, .. } => Some(*place),
        _ => None,
    }
}

// Reads a number under its name.
fn read_count<D: Disk>(
    alloc: Global,
    spec: &TableSpec,
    name: &str,
    disk: &mut D,
    source: &mut Source,
) -> Result<u64, StateWhy>
    requires within { IsWithin (D.size disk.old) source.old }
    ensures takes { IfOk result (λ count. Takes (D.contents disk.old) source.old (line_of (count_command spec.now name.now count)) source.new) }
    ensures finds { Seeks (D.contents disk.old) source.old (λ count. line_of (count_command spec.now name.now count)) (λ count. CommandFits (count_command spec.now name.now count)) (λ count. count) result }
    ensures reads { ReadsOn D.Disk disk.old disk.new source.new result }
{
    let command = source.next_command(disk)?;
    let said = count_in(&command);
    drop(command);
    let Some(count) = said else {
        return Err(source.wrong());
    };
    source.confirm(count_command(alloc, spec, name, count)?)?;
    Ok(count)
}

// Reads the names of the columns, which are to be the declared ones.
fn read_columns<D: Disk>(
    alloc: Global,
    spec: &TableSpec,
    disk: &mut D,
    source: &mut Source,
) -> Result<(), StateWhy>
    requires within { IsWithin (D.size disk.old) source.old }
    ensures takes { OnOk result (Takes (D.contents disk.old) source.old (line_of (columns_command spec.now)) source.new) }
    ensures finds { (bytes rest : List ℕ) → D.contents disk.old ≡ Some bytes → CommandFits (columns_command spec.now) → left_of bytes source.old ≡ line_of (columns_command spec.now) ++ rest → IfErr result IsInterruption }
    ensures reads { ReadsOn D.Disk disk.old disk.new source.new result }
{
    source.next_line(disk)?;
    source.confirm(columns_command(alloc, spec)?)
}

// The texts of a key, if there is one.
fn texts_of(key: &Option<Names>) -> Option<&[Text]>
    ensures { option_map (λ texts. texts.now) result ≡ key.now }
{
    match key {
        Some(texts) => Some(texts.as_slice()),
        None => None,
    }
}

// The index that a command defines, which a table with these columns and indices may have.
fn index_in(
    columns: &[Column],
    indices: &[IndexSpec],
    command: &Command,
) -> Result<IndexSpec, DefineFault>
    ensures defined { IfOk result (λ index. index_in columns.now indices.now command.now ≡ Some index) }
    ensures fits { IfOk result (λ index. IsNewIndex columns.now indices.now index) }
    ensures fault { IfErr result (λ why. IsFault (index_in columns.now indices.now command.now) why) }
{
    match command {
        Command::AddIndex {
            index,
            kind,
            unique,
            key,
            ..
        } => define_index(columns, indices, index, *kind, *unique, texts_of(key)),
        _ => Err(DefineFault::Definition),
    }
}

// Reads an index that a table with these indices may have.
fn read_index<D: Disk>(
    alloc: Global,
    spec: &TableSpec,
    indices: &[IndexSpec],
    disk: &mut D,
    source: &mut Source,
) -> Result<IndexSpec, StateWhy>
    requires within { IsWithin (D.size disk.old) source.old }
    ensures takes { IfOk result (λ index. Takes (D.contents disk.old) source.old (line_of (index_command spec.now index)) source.new) }
    ensures finds { Seeks (D.contents disk.old) source.old (λ index. line_of (index_command spec.now index)) (IndexFits spec.now indices.now) (λ index. index) result }
    ensures fits { IfOk result (λ index. IsNewIndex spec.now.columns indices.now index) }
    ensures reads { ReadsOn D.Disk disk.old disk.new source.new result }
{
    let command = source.next_command(disk)?;
    let said = index_in(spec.columns(), indices, &command);
    drop(command);
    match said {
        Ok(defined) => {
            source.confirm(index_command(alloc, spec, &defined)?)?;
            Ok(defined)
        }
        Err(DefineFault::Memory) => Err(StateWhy::Memory),
        Err(DefineFault::Definition) => Err(source.wrong()),
    }
}

// Reads so many indices: the declaration with them in place of its own.
fn read_indices<D: Disk>(
    alloc: Global,
    spec: &TableSpec,
    count: u64,
    disk: &mut D,
    source: &mut Source,
) -> Result<TableSpec, StateWhy>
    requires within { IsWithin (D.size disk.old) source.old }
    ensures takes { IfOk result (λ made. Takes (D.contents disk.old) source.old (lines_text (map (index_command spec.now) made.indices)) source.new) }
    ensures finds { Seeks (D.contents disk.old) source.old (λ indices. lines_text (map (index_command spec.now) indices)) (IndicesFit spec.now count) (λ made. made.indices) result }
    ensures count { IfOk result (λ made. length made.indices ≡ count) }
    ensures same { IfOk result (λ made. IsOfSameTable made spec.now) }
    ensures reads { ReadsOn D.Disk disk.old disk.new source.new result }
{
    if count == 0 {
        return Err(source.wrong());
    }
    let first = read_index(alloc, spec, &[], disk, source)?;
    let mut made = spec.with_only_index(first)?;
    while (made.indices().len() as u64) < count {
        let next = read_index(alloc, spec, made.indices(), disk, source)?;
        made = made.with_index(next)?;
    }
    Ok(made)
}

// The cell that a value is in a column.
fn cell_for<'a>(column: &Column, value: &'a Value) -> Option<&'a Cell>
    ensures { option_copied result ≡ cell_for column.now value.now }
{
    match value {
        Value::Cell(cell) if can_hold(column, cell) => Some(cell),
        _ => None,
    }
}

// The row of the values of a record: a cell for each column, which it can hold.
#[tactic(auto, unfolding(crate::specs::Parts::cells_from))]
fn row_from(alloc: Global, columns: &[Column], values: &[Value]) -> Result<Option<Row>, AllocError>
    ensures { IfOk result (λ row. row ≡ cells_from columns.now values.now) }
{
    if values.len() != columns.len() {
        return Ok(None);
    }
    let mut cells = Vec::with_capacity(alloc, columns.len())?;
    for (place, value) in values.iter().enumerate() {
        let Some(cell) = cell_for(&columns[place], value) else {
            return Ok(None);
        };
        cells.push(cell.copy()?)?;
    }
    Ok(Some(Row::new(cells)))
}

// The record that a command tells, where its values are cells of the columns.
fn entry_in(
    alloc: Global,
    columns: &[Column],
    command: &Command,
) -> Result<Option<Entry<Row>>, AllocError>
    ensures { IfOk result (λ entry. entry ≡ entry_in columns.now command.now) }
{
    match command {
        Command::ModifyKey {
            handle: HandleText::Handle(handle),
            key,
            ..
        } => match row_from(alloc, columns, key.as_slice())? {
            Some(row) => Ok(Some(Entry {
                handle: *handle,
                row,
            })),
            None => Ok(None),
        },
        _ => Ok(None),
    }
}

// Reads a record.
fn read_record<D: Disk>(
    alloc: Global,
    spec: &TableSpec,
    disk: &mut D,
    source: &mut Source,
) -> Result<Entry<Row>, StateWhy>
    requires within { IsWithin (D.size disk.old) source.old }
    ensures takes { IfOk result (λ entry. Takes (D.contents disk.old) source.old (line_of (record_command spec.now entry)) source.new) }
    ensures finds { Seeks (D.contents disk.old) source.old (λ entry. line_of (record_command spec.now entry)) (EntryFits spec.now) (λ entry. entry) result }
    ensures reads { ReadsOn D.Disk disk.old disk.new source.new result }
{
    let command = source.next_command(disk)?;
    let said = entry_in(alloc, spec.columns(), &command);
    drop(command);
    let Some(entry) = said? else {
        return Err(source.wrong());
    };
    source.confirm(record_command(alloc, spec, entry.handle, entry.row.cells())?)?;
    Ok(entry)
}

// Reads so many records.
#[tactic(auto, using(crate::proofs::Fronts::begins_none))]
fn read_records<D: Disk>(
    alloc: Global,
    spec: &TableSpec,
    count: u64,
    disk: &mut D,
    source: &mut Source,
) -> Result<Vec<Entry<Row>>, StateWhy>
    requires within { IsWithin (D.size disk.old) source.old }
    ensures takes { IfOk result (λ entries. Takes (D.contents disk.old) source.old (lines_text (map (record_command spec.now) entries.items)) source.new) }
    ensures finds { Seeks (D.contents disk.old) source.old (λ entries. lines_text (map (record_command spec.now) entries)) (EntriesFit spec.now count) (λ entries. entries.items) result }
    ensures count { IfOk result (λ entries. length entries.items ≡ count) }
    ensures reads { ReadsOn D.Disk disk.old disk.new source.new result }
{
    let mut entries = Vec::new(alloc);
    while (entries.len() as u64) < count {
        entries.push(read_record(alloc, spec, disk, source)?)?;
    }
    Ok(entries)
}

// The handles that texts spell, where each spells one.
#[tactic(auto, using(table_schema::proofs::Readings::reads))]
fn handles_from(alloc: Global, texts: &[HandleText]) -> Result<Option<Vec<Handle>>, AllocError>
    ensures { IfOk result (λ handles. option_map (λ list. list.items) handles ≡ handles_in texts.now) }
{
    let mut handles = Vec::with_capacity(alloc, texts.len())?;
    for text in texts {
        match text {
            HandleText::Handle(handle) => handles.push(*handle)?,
            HandleText::Bad => return Ok(None),
        }
    }
    Ok(Some(handles))
}

// The order of an index that a command tells, where each of its texts spells a handle.
fn order_in(alloc: Global, command: &Command) -> Result<Option<Vec<Handle>>, AllocError>
    ensures { IfOk result (λ handles. option_map (λ list. list.items) handles ≡ order_in command.now) }
{
    match command {
        Command::Rearrange { handles, .. } => handles_from(alloc, handles.as_slice()),
        _ => Ok(None),
    }
}

// Reads the order of an index.
fn read_order<D: Disk>(
    alloc: Global,
    spec: &TableSpec,
    index: &str,
    disk: &mut D,
    source: &mut Source,
) -> Result<Vec<Handle>, StateWhy>
    requires within { IsWithin (D.size disk.old) source.old }
    ensures takes { IfOk result (λ handles. Takes (D.contents disk.old) source.old (line_of (order_command spec.now index.now handles.items)) source.new) }
    ensures finds { Seeks (D.contents disk.old) source.old (λ handles. line_of (order_command spec.now index.now handles)) (λ handles. CommandFits (order_command spec.now index.now handles)) (λ handles. handles.items) result }
    ensures reads { ReadsOn D.Disk disk.old disk.new source.new result }
{
    let command = source.next_command(disk)?;
    let said = order_in(alloc, &command);
    drop(command);
    let Some(handles) = said? else {
        return Err(source.wrong());
    };
    source.confirm(order_command(alloc, spec, index, &handles)?)?;
    Ok(handles)
}

// Reads the order of each index.
#[tactic(auto, using(crate::proofs::Fronts::begins_none))]
fn read_orders<D: Disk>(
    alloc: Global,
    spec: &TableSpec,
    disk: &mut D,
    source: &mut Source,
) -> Result<Vec<Vec<Handle>>, StateWhy>
    requires within { IsWithin (D.size disk.old) source.old }
    ensures takes { IfOk result (λ orders. Takes (D.contents disk.old) source.old (lines_text (order_commands spec.now (map (λ order. order.items) orders.items))) source.new) }
    ensures finds { Seeks (D.contents disk.old) source.old (λ lists. lines_text (order_commands spec.now lists)) (OrdersFit spec.now) (λ orders. map (λ order. order.items) orders.items) result }
    ensures reads { ReadsOn D.Disk disk.old disk.new source.new result }
{
    let indices = spec.indices();
    let mut orders = Vec::with_capacity(alloc, indices.len())?;
    for index in indices {
        orders.push(read_order(alloc, spec, index.name.as_str(), disk, source)?)?;
    }
    Ok(orders)
}

// What is told of a table: its declaration, and what it held.
#[derive(Drop)]
struct Told {
    spec: TableSpec,
    saved: Saved<Row>,
}

// Reads all lines.
fn read_all<D: Disk>(
    alloc: Global,
    spec: &TableSpec,
    disk: &mut D,
    source: &mut Source,
) -> Result<Told, StateWhy>
    requires within { IsWithin (D.size disk.old) source.old }
    ensures takes { IfOk result (λ told. Takes (D.contents disk.old) source.old (state_text (restored_table told.spec told.saved)) source.new) }
    ensures finds { Seeks (D.contents disk.old) source.old state_text (λ t. CanStand t × IsOfSameTable t.shape spec.now) (λ told. restored_table told.spec told.saved) result }
    ensures same { IfOk result (λ told. IsOfSameTable told.spec spec.now) }
    ensures reads { ReadsOn D.Disk disk.old disk.new source.new result }
{
    let writes = read_count(alloc, spec, "writes", disk, source)?;
    let indices = read_count(alloc, spec, "indices", disk, source)?;
    let records = read_count(alloc, spec, "records", disk, source)?;
    read_columns(alloc, spec, disk, source)?;
    let spec = read_indices(alloc, spec, indices, disk, source)?;
    let entries = read_records(alloc, &spec, records, disk, source)?;
    let orders = read_orders(alloc, &spec, disk, source)?;
    Ok(Told {
        spec,
        saved: Saved {
            writes,
            entries,
            orders,
        },
    })
}

// What is told of a table that is not restored.
fn told_of(why: Unrestorable) -> StateWhy
    ensures memory { why ≡ Unrestorable.Memory → result ≡ StateWhy.Memory }
    ensures disk { result ≡ StateWhy.Disk → ⊥ }
{
    match why {
        Unrestorable::Memory => StateWhy::Memory,
        _ => StateWhy::Table,
    }
}

/// Reads the state of a table of this declaration: a table whose state has the text that the disk has, no more and no less. Its
/// indices may be others than the declared ones. Another text is refused, and so is one that is cut off anywhere. The disk is
/// left as it was. O(length of the text), and what `MultiIndex::restore` costs.
pub fn read_state<D: Disk>(alloc: Global, spec: &TableSpec, disk: &mut D) -> Result<Table, StateWhy>
    ensures read { IfOk result (λ table. (bytes : List ℕ) → D.contents disk.old ≡ Some bytes → bytes ≡ state_text table) }
    ensures recalls { Recalls (D.contents disk.old) spec.now result }
    ensures same { IfOk result (λ table. IsOfSameTable table.shape spec.now) }
    ensures contents { D.contents disk.new ≡ D.contents disk.old }
    ensures size { D.size disk.new ≡ D.size disk.old }
    ensures synced { D.synced disk.new ≡ D.synced disk.old }
    ensures failures { D.failures disk.new ≡ failures_of_state result (D.failures disk.old) }
{
    let mut source = Source::new(alloc, disk.size())?;
    let Told { spec, saved } = read_all(alloc, spec, disk, &mut source)?;
    source.end(disk)?;
    match Table::restored(alloc, spec, saved) {
        Ok(table) => Ok(table),
        Err(why) => Err(told_of(why)),
    }
}
