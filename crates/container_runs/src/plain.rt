//! The container's first version, over plain lists: a reference that shares no code with the container. It looks at
//! every record, and asks at run time for what the container's contracts promise.

mod changes;
mod indexing;
mod lists;
mod places;
mod records;
mod refusals;
mod scan;

use crate::indices::Indices;
use crate::limits::Limits;
use container_model::{Handle, Kind, Spec, Why};
use key_extract::{Probe, Row, RowKeys};
use lists::Lists;
use records::Records;
use std::alloc::{AllocError, Global};

/// Records under several indices, each of which is a list of all handles.
#[derive(Drop)]
pub(crate) struct PlainIndex {
    keys: RowKeys,
    specs: Vec<Spec>,
    most: usize,
    max: u32,
    writes: u64,
    records: Records,
    lists: Lists,
}

impl PlainIndex {
    pub(crate) fn new(
        alloc: Global,
        indices: &Indices,
        limits: Limits,
    ) -> Result<PlainIndex, AllocError> {
        Ok(PlainIndex {
            keys: RowKeys::new(alloc, &indices.keys)?,
            specs: indices.specs.to_vec(alloc)?,
            most: limits.most,
            max: limits.max,
            writes: limits.first_write,
            records: Records::new(alloc),
            lists: Lists::new(alloc, indices.specs.len())?,
        })
    }

    pub(crate) fn len(&self) -> u64 {
        self.view(0).len() as u64
    }

    pub(crate) fn is_empty(&self) -> bool {
        self.view(0).is_empty()
    }

    pub(crate) fn writes(&self) -> u64 {
        self.writes
    }

    /// How many indices it may have.
    pub(crate) fn most(&self) -> usize {
        self.most
    }

    /// How many records it may have.
    pub(crate) fn max(&self) -> u32 {
        self.max
    }

    pub(crate) fn view(&self, index: usize) -> &[Handle] {
        self.lists.view(index)
    }

    pub(crate) fn get(&self, handle: Handle) -> Result<&Row, Why> {
        self.records.get(handle)
    }

    /// The first record that has the key.
    pub(crate) fn find(&self, index: usize, probe: &Probe) -> Result<Option<Handle>, Why> {
        self.has_key(index)?;
        Ok(self.first_equal(index, probe))
    }

    /// How many records have the key.
    pub(crate) fn count(&self, index: usize, probe: &Probe) -> Result<u64, Why> {
        self.has_key(index)?;
        Ok(self.count_equal(index, probe))
    }

    fn kind(&self, index: usize) -> Kind {
        match self.specs.get(index) {
            Some(spec) => spec.kind,
            None => Kind::Sequenced,
        }
    }

    fn has_key(&self, index: usize) -> Result<(), Why> {
        match self.kind(index) {
            Kind::Sequenced | Kind::Random => Err(Why::Kind),
            Kind::Ordered | Kind::Ranked | Kind::Hashed => Ok(()),
        }
    }
}
