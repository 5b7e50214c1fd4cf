//! The container and its first version, side by side.
ghost use Rattle.std.specs.Prelude.{◌≡◌, ◌<◌, ◌≤◌, IfOk, IsTrue, is_some, length};
ghost use Rattle.container_model.specs.State.{KeysMatch, empty_with_most, has_key_kind, is_hashed_kind, is_ranked_kind, is_sorted_kind};
ghost use Rattle.container_model.specs.Find.{kind_at};
ghost use Rattle.key_extract.specs.Keys.{key_at, parts_at, probe_fits, probe_is_whole};

mod answers;
mod changes;
mod indexing;
mod look_ups;
mod reads;
mod restoring;
mod swap;

use crate::indices::Indices;
use crate::limits::Limits;
use crate::plain::PlainIndex;
pub(crate) use changes::Write;
use container_model::{Handle, Kind, Spec};
use key_extract::{Extract, KeySpec, Probe, Row, RowKeys};
use multi_index::MultiIndex;
use std::alloc::{AllocError, Global};
use std::marker::Model;

/// Two containers that were given the same calls. It is said whether they were ever cleared.
#[derive(Drop)]
pub(crate) struct Pair {
    keys: RowKeys,
    indices: Indices,
    container: MultiIndex<Row, RowKeys>,
    plain: PlainIndex,
    was_cleared: bool,
}

impl Model for Pair {
    ghost use Rattle.std.specs.Prelude.{◌≡◌, List, Option, length};
    ghost use Rattle.container_model.specs.State.{State};
    ghost use Rattle.key_extract.specs.declared.key.Part.{Part as KeyPart};
    ghost use Rattle.key_extract.specs.declared.cell.Cell.{Cell as CellValue};

    ghost Value = { State (List (Option (List KeyPart))) (List CellValue) };

    ghost view = { λ p. p.container };

    ghost invariant = { λ p. (p.container.keys ≡ p.keys) × (p.container.specs ≡ p.indices.specs.items) × (length p.keys ≡ length p.indices.specs.items) × (length p.indices.keys.items ≡ length p.indices.specs.items) };
}

// Whether an index has a key where it is of a kind that compares records, and else has none and is not unique.
fn agrees(has_key: bool, spec: Spec) -> bool
    ensures keyed { IsTrue result → has_key ≡ has_key_kind spec.kind }
    ensures unique { IsTrue result → IsTrue spec.unique → IsTrue (has_key_kind spec.kind) }
{
    match spec.kind {
        Kind::Sequenced | Kind::Random => !has_key && !spec.unique,
        Kind::Ordered | Kind::Ranked | Kind::Hashed => has_key,
    }
}

// Whether all indices do.
fn keys_match(keys: &RowKeys, specs: &[Spec]) -> bool
    ensures { IsTrue result → KeysMatch (λ i. is_some (key_at keys.now i)) specs.now }
{
    for index in 0..specs.len() {
        if !agrees(keys.has(index), specs[index]) {
            return false;
        }
    }
    true
}

// A container without records.
fn new_container(
    alloc: Global,
    indices: &Indices,
    limits: Limits,
) -> Result<MultiIndex<Row, RowKeys>, AllocError>
    requires some { 1 ≤ length indices.now.specs.items }
    requires few { length indices.now.specs.items ≤ limits.most }
    requires most { limits.most ≤ 8 }
    requires keys { KeysMatch (λ i. is_some (key_at indices.now.keys.items i))
        indices.now.specs.items }
    ensures { IfOk result (λ made. made ≡ empty_with_most limits.most indices.now.keys.items
        indices.now.specs.items limits.max limits.first_write) }
{
    let specs = indices.specs.to_vec(alloc)?;
    let keys = RowKeys::new(alloc, &indices.keys)?;
    let Limits {
        most,
        max,
        first_write,
    } = limits;
    if most == 8 {
        return MultiIndex::new(alloc, specs, keys, max, first_write);
    }
    MultiIndex::with_most(alloc, specs, keys, most, max, first_write)
}

// Whether the index of a kind can be searched by the probe; one that has no key refuses each.
fn may_search(kind: Kind, keys: &RowKeys, index: usize, probe: &Probe) -> bool
    ensures fits { IsTrue result → IsTrue (has_key_kind kind) →
        IsTrue (probe_fits (parts_at keys.now index) probe.now) }
    ensures sorted { IsTrue result → IsTrue (is_sorted_kind kind) →
        IsTrue (probe_fits (parts_at keys.now index) probe.now) }
    ensures ranked { IsTrue result → IsTrue (is_ranked_kind kind) →
        IsTrue (probe_fits (parts_at keys.now index) probe.now) }
    ensures whole { IsTrue result → IsTrue (is_hashed_kind kind) →
        IsTrue (probe_is_whole (parts_at keys.now index) probe.now) }
{
    match kind {
        Kind::Sequenced | Kind::Random => true,
        Kind::Ordered | Kind::Ranked => { keys.has(index) && keys.fits(index, probe) }
        Kind::Hashed => { keys.has(index) && keys.fits(index, probe) && keys.whole(index, probe) }
    }
}

impl Pair {
    /// Both without records, if the indices and the keys are those of a container.
    pub(crate) fn new(
        alloc: Global,
        indices: &Indices,
        limits: Limits,
    ) -> Result<Option<Pair>, AllocError> {
        let keys = RowKeys::new(alloc, &indices.keys)?;
        let count = indices.len();
        if count < 1 || count > limits.most || limits.most > 8 || indices.keys.len() != count {
            return Ok(None);
        }
        if !keys_match(&keys, &indices.specs) {
            return Ok(None);
        }
        Ok(Some(Pair {
            keys,
            indices: indices.copy()?,
            plain: PlainIndex::new(alloc, indices, limits)?,
            container: new_container(alloc, indices, limits)?,
            was_cleared: false,
        }))
    }

    /// How many indices there are.
    pub(crate) fn indices(&self) -> usize
        ensures { result ≡ length self.now.specs }
    {
        self.indices.len()
    }

    fn alloc(&self) -> Global {
        *self.indices.specs.allocator()
    }

    /// The key of an index, if it has one.
    pub(crate) fn key(&self, index: usize) -> Option<&KeySpec> {
        self.indices.keys.get(index)?.as_ref()
    }

    pub(crate) fn len(&self) -> u64 {
        self.plain.len()
    }

    /// The handles of the records of the first index.
    pub(crate) fn handles(&self) -> &[Handle] {
        self.plain.view(0)
    }

    // Whether all views are equal.
    fn same_views(&self) -> bool {
        for index in 0..self.indices() {
            match self.container.view(index) {
                Ok(view) => if view.as_slice() != self.plain.view(index) {
                    return false;
                },
                Err(_) => return false,
            }
        }
        true
    }

    fn same_sizes(&self) -> bool {
        self.container.len() == self.plain.len()
            && self.container.is_empty() == self.plain.is_empty()
            && self.container.writes() == self.plain.writes()
    }

    // Whether the index can be searched by the probe; one that has no key refuses each.
    fn may_search(&self, index: usize, probe: &Probe) -> bool
        ensures in_range { IsTrue result → index < length self.now.specs }
        ensures fits { IsTrue result → IsTrue (has_key_kind (kind_at self.now index)) →
            IsTrue (probe_fits (parts_at self.now.keys index) probe.now) }
        ensures sorted { IsTrue result → IsTrue (is_sorted_kind (kind_at self.now index)) →
            IsTrue (probe_fits (parts_at self.now.keys index) probe.now) }
        ensures ranked { IsTrue result → IsTrue (is_ranked_kind (kind_at self.now index)) →
            IsTrue (probe_fits (parts_at self.now.keys index) probe.now) }
        ensures whole { IsTrue result → IsTrue (is_hashed_kind (kind_at self.now index)) →
            IsTrue (probe_is_whole (parts_at self.now.keys index) probe.now) }
    {
        index < self.indices()
            && may_search(self.indices.specs[index].kind, &self.keys, index, probe)
    }
}
