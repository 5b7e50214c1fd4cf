//! One table of a schema.
ghost use Rattle.std.specs.Prelude.{◌≡◌, ◌<◌, [], IfOk, length};
ghost use Rattle.table_schema.specs.Defined.{IsNewIndex, with_index, with_only_index, without_index};
ghost use Rattle.table_schema.specs.Valid.{IsValidTable};

use crate::column::{Column, IndexSpec};
use key_extract::Text;
use std::alloc::{AllocError, Global};
use std::marker::Model;

/// A table of a schema: its name, its columns and indices, and the most records that it may hold.
/// It is valid by itself, and knows its place in the schema.
#[derive(Drop)]
pub struct TableSpec {
    name: Text,
    max: u32,
    columns: Vec<Column>,
    indices: Vec<IndexSpec>,
    place: usize,
    tables: usize,
}

impl Model for TableSpec {
    ghost use Rattle.table_schema.specs.Shape.{TableShape};
    ghost use Rattle.table_schema.specs.Valid.{IsValidTable};

    ghost Value = { TableShape };

    ghost view = { λ t. record { name = t.name; max = t.max; columns = t.columns.items; indices = t.indices.items; place = t.place; tables = t.tables } };

    ghost invariant = { λ t. IsValidTable (record { name = t.name; max = t.max; columns = t.columns.items; indices = t.indices.items; place = t.place; tables = t.tables }) };
}

impl TableSpec {
    // A table of these parts.
    pub(crate) fn new(
        name: Text,
        max: u32,
        columns: Vec<Column>,
        indices: Vec<IndexSpec>,
        place: usize,
        tables: usize,
    ) -> TableSpec
        requires { IsValidTable (record { name = name; max = max; columns = columns.items; indices = indices.items; place = place; tables = tables }) }
        ensures { result ≡ record { name = name; max = max; columns = columns.items; indices = indices.items; place = place; tables = tables } }
    {
        TableSpec {
            name,
            max,
            columns,
            indices,
            place,
            tables,
        }
    }

    /// The table's name. O(1).
    pub fn name(&self) -> &str
        ensures value { result.now ≡ self.now.name }
        ensures valid { IsValidTable self.now }
    {
        self.name.as_str()
    }

    /// The most records that the table may hold. O(1).
    pub fn max(&self) -> u32
        ensures value { result ≡ self.now.max }
        ensures valid { IsValidTable self.now }
    {
        self.max
    }

    /// The columns, in the order of a row's cells. O(1).
    pub fn columns(&self) -> &[Column]
        ensures value { result.now ≡ self.now.columns }
        ensures valid { IsValidTable self.now }
    {
        &self.columns
    }

    /// The indices, in declared order. O(1).
    pub fn indices(&self) -> &[IndexSpec]
        ensures value { result.now ≡ self.now.indices }
        ensures valid { IsValidTable self.now }
    {
        &self.indices
    }

    /// The table's place among the tables of its schema, from 0 on. O(1).
    pub fn place(&self) -> usize
        ensures value { result ≡ self.now.place }
        ensures valid { IsValidTable self.now }
    {
        self.place
    }

    /// The number of tables in its schema. O(1).
    pub fn tables(&self) -> usize
        ensures value { result ≡ self.now.tables }
        ensures valid { IsValidTable self.now }
    {
        self.tables
    }

    /// The table with one index more, the last, newly allocated. O(columns + indices).
    pub fn with_index(&self, index: IndexSpec) -> Result<TableSpec, AllocError>
        requires { IsNewIndex self.now.columns self.now.indices index }
        ensures { IfOk result (λ table. table ≡ with_index self.now index) }
    {
        let mut table = self.copy()?;
        table.indices.push(index)?;
        Ok(table)
    }

    /// The table with this index in place of its own, newly allocated. O(columns).
    pub fn with_only_index(&self, index: IndexSpec) -> Result<TableSpec, AllocError>
        requires { IsNewIndex self.now.columns [] index }
        ensures { IfOk result (λ table. table ≡ with_only_index self.now index) }
    {
        let alloc = *self.columns.allocator();
        let name = self.name.copy()?;
        let columns = copy_columns(alloc, &self.columns)?;
        let mut indices = Vec::with_capacity(alloc, 1)?;
        indices.push(index)?;
        Ok(TableSpec::new(name, self.max, columns, indices, self.place, self.tables))
    }

    /// Drops one of several indices; those after it move up by one. It takes no memory. O(indices).
    pub fn drop_index(&mut self, index: usize)
        requires index { index < length self.old.indices }
        requires several { 1 < length self.old.indices }
        ensures { self.new ≡ without_index self.old index }
    {
        self.indices.remove(index);
    }

    /// An equal table, newly allocated. O(columns + indices).
    pub fn copy(&self) -> Result<TableSpec, AllocError>
        ensures { IfOk result (λ copy. copy ≡ self.now) }
    {
        let TableSpec {
            name,
            max,
            columns,
            indices,
            place,
            tables,
        } = self;
        let alloc = *columns.allocator();
        Ok(TableSpec::new(
            name.copy()?,
            *max,
            copy_columns(alloc, columns)?,
            copy_indices(alloc, indices)?,
            *place,
            *tables,
        ))
    }
}

// Equal columns, newly allocated.
pub(crate) fn copy_columns(alloc: Global, columns: &[Column]) -> Result<Vec<Column>, AllocError>
    ensures { IfOk result (λ copies. copies.items ≡ columns.now) }
{
    let mut copies = Vec::with_capacity(alloc, columns.len())?;
    for column in columns {
        copies.push(column.copy()?)?;
    }
    Ok(copies)
}

// Equal indices, newly allocated.
fn copy_indices(alloc: Global, indices: &[IndexSpec]) -> Result<Vec<IndexSpec>, AllocError>
    ensures { IfOk result (λ copies. copies.items ≡ indices.now) }
{
    let mut copies = Vec::with_capacity(alloc, indices.len())?;
    for index in indices {
        copies.push(index.copy()?)?;
    }
    Ok(copies)
}
