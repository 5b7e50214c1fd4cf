//! Indices added and dropped.

ghost use Rattle.std.specs.Prelude.{◌<◌, IfErr, length};
ghost use Rattle.container_model.specs.Indices.{drop_index_refusal};
ghost use Rattle.table_records.specs.Reindexed.{Becomes, IsNotAdded, IsNotDropped, add_refusal, with_table_index, without_table_index};
ghost use Rattle.table_schema.specs.Defined.{IsNewIndex};

use crate::indices::keys_of;
use crate::records::Records;
use container_model::{Spec, Why};
use table_schema::{IndexSpec, TableSpec};

/// Why an index was not added.
#[derive(Drop)]
pub enum NotAdded {
    /// The container refused it. The declaration is the table's with the index.
    Refused { why: Why, spec: TableSpec },
    /// Memory was refused for that declaration, or for its keys.
    Memory,
}

impl Records {
    /// Adds an index, the last, to the declaration and to the container. A refused one changes nothing, and memory may be refused
    /// before another cause is seen. Costs what `MultiIndex::add_index` does.
    pub fn add_index(&mut self, index: IndexSpec) -> Result<(), NotAdded>
        requires { IsNewIndex self.old.shape.columns self.old.shape.indices index }
        ensures becomes { Becomes result self.old self.new (add_refusal self.old index)
            (with_table_index self.old index) }
        ensures why { IfErr result (IsNotAdded self.old index) }
    {
        let alloc = *self.headings.allocator();
        let added = Spec {
            kind: index.kind,
            unique: index.unique,
        };
        let Ok(spec) = self.spec.with_index(index) else {
            return Err(NotAdded::Memory);
        };
        let Ok(keys) = keys_of(alloc, spec.indices()) else {
            return Err(NotAdded::Memory);
        };
        match self.container.add_index(added, keys) {
            Ok(()) => {
                self.spec = spec;
                Ok(())
            }
            Err(refused) => Err(NotAdded::Refused {
                why: refused.why,
                spec,
            }),
        }
    }

    /// Drops an index from the declaration and from the container; those after it move up by one. The only one may not go. It takes
    /// memory for the keys of those that stay. Costs what `MultiIndex::drop_index` does.
    pub fn drop_index(&mut self, index: usize) -> Result<(), Why>
        requires { index < length self.old.shape.indices }
        ensures becomes { Becomes result self.old self.new (drop_index_refusal self.old.records)
            (without_table_index self.old index) }
        ensures why { IfErr result (IsNotDropped self.old) }
    {
        if self.spec.indices().len() == 1 {
            return Err(Why::Definition);
        }
        let Ok(keys) = self.container.keys().without(index) else {
            return Err(Why::Memory);
        };
        match self.container.drop_index(index, keys) {
            Ok(()) => {
                self.spec.drop_index(index);
                Ok(())
            }
            Err(refused) => Err(refused.why),
        }
    }
}
