//! The records of a table with its declaration.

ghost use Rattle.std.specs.Prelude.{◌≡◌, IfOk};
ghost use Rattle.table_records.specs.Headings.{headings_of};
ghost use Rattle.table_terms.specs.Table.{HasIndices, new_table};

use crate::headings::headings_of;
use crate::indices::{keys_of, specs_of};
use key_extract::{Row, RowKeys};
use multi_index::MultiIndex;
use std::alloc::{AllocError, Global};
use std::marker::Model;
use table_reply::Heading;
use table_schema::TableSpec;

/// The records of a table, under the indices that its schema declares.
pub struct Records {
    pub(crate) spec: TableSpec,
    pub(crate) headings: Vec<Heading>,
    pub(crate) container: MultiIndex<Row, RowKeys>,
}

// As a function, as a container's.
impl Drop for Records {
    fn drop(self) {
        let Records {
            spec: _spec,
            headings: _headings,
            container: _container,
        } = self;
    }
}

impl Model for Records {
    ghost use Rattle.table_records.specs.Fits.{FitsShape};
    ghost use Rattle.table_terms.specs.Table.{TableState};

    ghost Value = { TableState };

    ghost view = { λ t. record { shape = t.spec; records = t.container } };

    ghost invariant = { λ t. FitsShape t.spec t.headings.items t.container };
}

impl Records {
    /// No records, of a table of this declaration. O(columns² + indices).
    pub fn new(alloc: Global, spec: &TableSpec) -> Result<Records, AllocError>
        ensures { IfOk result (λ records. records ≡ new_table spec.now) }
    {
        let keys = keys_of(alloc, spec.indices())?;
        let specs = specs_of(alloc, spec.indices())?;
        let container = MultiIndex::new(alloc, specs, keys, spec.max(), 0)?;
        let headings = headings_of(alloc, spec.columns())?;
        let spec = spec.copy()?;
        Ok(Records {
            spec,
            headings,
            container,
        })
    }

    /// The table's declaration. O(1).
    pub fn spec(&self) -> &TableSpec
        ensures { result.now ≡ self.now.shape }
    {
        &self.spec
    }

    /// The columns with their places in a row, in ascending order of their names. O(1).
    pub fn headings(&self) -> &[Heading]
        ensures { result.now ≡ headings_of self.now.shape.columns }
    {
        &self.headings
    }

    /// The container of the records, under the indices of the declaration. O(1).
    pub fn container(&self) -> &MultiIndex<Row, RowKeys>
        ensures value { result.now ≡ self.now.records }
        ensures indices { HasIndices self.now.shape self.now.records }
    {
        &self.container
    }
}
