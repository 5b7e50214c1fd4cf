//! Records made of what a table held.

ghost use Rattle.std.specs.Prelude.{◌≡◌, IfErr, IfOk};
ghost use Rattle.multi_index.specs.Restored.{IsUnrestorable, saved_state};
ghost use Rattle.table_records.specs.Restored.{restored_table};
ghost use Rattle.table_terms.specs.Table.{keys_of, row_order, specs_of};

use crate::headings::headings_of;
use crate::indices;
use crate::records::Records;
use key_extract::{Row, RowKeys};
use multi_index::{MultiIndex, Saved, Unrestorable};
use std::alloc::Global;
use table_schema::TableSpec;

/// The most indices of a table.
const MOST_INDICES: usize = 8;

// The container that was saved, under the indices of a declaration.
fn restored_container(
    alloc: Global,
    spec: &TableSpec,
    saved: Saved<Row>,
) -> Result<MultiIndex<Row, RowKeys>, Unrestorable>
    ensures made { IfOk result (λ made. made ≡ saved_state 8 spec.now.max (keys_of spec.now) (specs_of spec.now) saved) }
    ensures why { IfErr result (IsUnrestorable (row_order (keys_of spec.now)) (specs_of spec.now) spec.now.max saved) }
{
    let Ok(keys) = indices::keys_of(alloc, spec.indices()) else {
        return Err(Unrestorable::Memory);
    };
    let Ok(specs) = indices::specs_of(alloc, spec.indices()) else {
        return Err(Unrestorable::Memory);
    };
    MultiIndex::restore(alloc, specs, keys, MOST_INDICES, spec.max(), saved)
}

impl Records {
    /// The records that were saved, of a table of this declaration, which it takes. What is no container of such a table is
    /// refused, as `MultiIndex::restore` does, and costs what it does.
    pub fn restored(
        alloc: Global,
        spec: TableSpec,
        saved: Saved<Row>,
    ) -> Result<Records, Unrestorable>
        ensures made { IfOk result (λ records. records ≡ restored_table spec saved) }
        ensures why { IfErr result (IsUnrestorable (row_order (keys_of spec)) (specs_of spec) spec.max saved) }
    {
        let Ok(headings) = headings_of(alloc, spec.columns()) else {
            return Err(Unrestorable::Memory);
        };
        match restored_container(alloc, &spec, saved) {
            Ok(container) => Ok(Records {
                spec,
                headings,
                container,
            }),
            Err(why) => Err(why),
        }
    }
}
