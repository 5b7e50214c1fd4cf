//! The container, with what it shows.
ghost use Rattle.std.specs.Prelude.{◌≡◌, ◌<◌, ◌≤◌, IfOk, IsTrue, is_some, length};
ghost use Rattle.container_model.specs.State.{KeysMatch, empty, has_key_kind, is_hashed_kind, is_ranked_kind, is_sorted_kind};
ghost use Rattle.container_model.specs.Find.{kind_at};
ghost use Rattle.key_extract.specs.Keys.{key_at, parts_at, probe_fits, probe_is_whole};

mod orders;
mod positions;
mod searches;

use crate::lists::{WITH_KEYS, answer_of};
use crate::tally::{Call, Tallies};
use crate::views::Views;
use arrayvec::ArrayVec;
use container_model::{Handle, Kind, Refused, Spec, Why};
use key_extract::{Extract, KeySpec, Part, Probe, Row, RowKeys};
use multi_index::MultiIndex;
pub(crate) use orders::Order;
pub(crate) use positions::Step;
pub(crate) use searches::{Measure, Search};
use std::alloc::{AllocError, Global};
use std::cmp::Ordering;
use std::marker::Model;

const SPECS: [Spec; 6] = [
    Spec {
        kind: Kind::Sequenced,
        unique: false,
    },
    Spec {
        kind: Kind::Random,
        unique: false,
    },
    Spec {
        kind: Kind::Ordered,
        unique: false,
    },
    Spec {
        kind: Kind::Ranked,
        unique: false,
    },
    Spec {
        kind: Kind::Ranked,
        unique: false,
    },
    Spec {
        kind: Kind::Hashed,
        unique: false,
    },
];

/// A container of rows of three numbers, with the views that it showed after the last change.
#[derive(Drop)]
pub(crate) struct Watched {
    alloc: Global,
    keys: RowKeys,
    specs: Vec<Spec>,
    container: MultiIndex<Row, RowKeys>,
    views: Views,
}

impl Model for Watched {
    ghost use Rattle.std.specs.Prelude.{◌≡◌, List, Option};
    ghost use Rattle.container_model.specs.State.{State};
    ghost use Rattle.key_extract.specs.declared.key.Part.{Part as KeyPart};
    ghost use Rattle.key_extract.specs.declared.cell.Cell.{Cell as CellValue};

    ghost Value = { State (List (Option (List KeyPart))) (List CellValue) };

    ghost view = { λ w. w.container };

    ghost invariant = { λ w. (w.container.keys ≡ w.keys) × (w.container.specs ≡ w.specs.items) };
}

// A key by one column, and by a second one in falling order.
fn key(column: usize, second: Option<usize>) -> KeySpec {
    let mut parts = ArrayVec::new();
    parts.push(Part {
        column,
        falling: false,
    });
    if let Some(column) = second {
        parts.push(Part {
            column,
            falling: true,
        });
    }
    KeySpec::new(parts)
}

// What refused a call.
fn refusal<T>(answer: &Result<T, Refused<Row>>) -> Option<Why> {
    match answer {
        Ok(_) => None,
        Err(refused) => Some(refused.why),
    }
}

// Whether a list is another one with this record put in, if there is one.
fn is_list_with(view: &[Handle], list: &[Handle], inserted: Option<Handle>) -> bool {
    let mut place = 0usize;
    for handle in view {
        if Some(*handle) != inserted {
            if list.get(place) != Some(handle) {
                return false;
            }
            place = place.saturating_add(1);
        }
    }
    place == list.len() && (inserted.is_none() || view.len() > place)
}

// A container without records.
fn new_container(
    alloc: Global,
    specs: &[Spec],
    keys: &[Option<KeySpec>],
    first_write: u64,
) -> Result<MultiIndex<Row, RowKeys>, AllocError>
    requires some { 1 ≤ length specs.now }
    requires few { length specs.now ≤ 8 }
    requires keys { KeysMatch (λ i. is_some (key_at keys.now i)) specs.now }
    ensures { IfOk result (λ made. made ≡ empty keys.now specs.now 1000 first_write) }
{
    let specs = specs.to_vec(alloc)?;
    let keys = RowKeys::new(alloc, keys)?;
    MultiIndex::new(alloc, specs, keys, 1000, first_write)
}

impl Watched {
    /// A container without records.
    pub(crate) fn new(alloc: Global, first_write: u64) -> Result<Watched, AllocError> {
        let keys = [
            None,
            None,
            Some(key(0, Some(1))),
            Some(key(1, None)),
            Some(key(2, Some(0))),
            Some(key(0, Some(1))),
        ];
        Watched::under(alloc, &SPECS, &keys, first_write)
    }

    fn under(
        alloc: Global,
        specs: &[Spec],
        keys: &[Option<KeySpec>],
        first_write: u64,
    ) -> Result<Watched, AllocError>
        requires some { 1 ≤ length specs.now }
        requires few { length specs.now ≤ 8 }
        requires keys { KeysMatch (λ i. is_some (key_at keys.now i)) specs.now }
    {
        Ok(Watched {
            alloc,
            keys: RowKeys::new(alloc, keys)?,
            specs: specs.to_vec(alloc)?,
            views: Views::new(alloc, specs.len())?,
            container: new_container(alloc, specs, keys, first_write)?,
        })
    }

    /// How many indices there are.
    pub(crate) fn indices(&self) -> usize
        ensures { result ≡ length self.now.specs }
    {
        self.specs.len()
    }

    /// The records of an index.
    pub(crate) fn list(&self, index: usize) -> &[Handle] {
        self.views.list(index)
    }

    /// Puts a row in, after which each view without it is as it was.
    pub(crate) fn insert(&mut self, row: Row, tallies: &mut Tallies) {
        let wanted = self.spent();
        let answer = self.container.insert(row);
        let inserted = match &answer {
            Ok(handle) => Some(*handle),
            Err(_) => None,
        };
        let why = refusal(&answer);
        tallies.count(Call::Insert, wanted, self.shows(inserted) && why == wanted);
    }

    /// Takes a record out, after which each view is as it was without it.
    pub(crate) fn erase(&mut self, handle: Handle, tallies: &mut Tallies) {
        let wanted = self.container.get(handle).err().or(self.spent());
        if wanted.is_none() {
            self.views.take_out(handle);
        }
        let why = refusal(&self.container.erase(handle, None));
        tallies.count(Call::Erase, wanted, self.shows(None) && why == wanted);
    }

    /// Takes out all records that have the key, where the index can be searched by it; each view is then as it was
    /// without them.
    pub(crate) fn erase_key(
        &mut self,
        index: usize,
        probe: &Probe,
        tallies: &mut Tallies,
    ) -> Result<(), AllocError> {
        if !self.may_search(index, probe) {
            return Ok(());
        }
        let kind = self.specs[index].kind;
        let wanted = answer_of(&WITH_KEYS, kind, ()).err().or(self.spent());
        let handles = self.with_key(index, probe)?;
        if wanted.is_none() {
            self.views.take_out_all(&handles);
        }
        let same = match &self.container.erase_key(index, probe) {
            Ok(count) => wanted.is_none() && *count == handles.len() as u64,
            Err(refused) => wanted == Some(refused.why),
        };
        tallies.count(Call::EraseKey, wanted, self.shows(None) && same);
        Ok(())
    }

    // The records of an index that have the key.
    fn with_key(&self, index: usize, probe: &Probe) -> Result<Vec<Handle>, AllocError> {
        let mut handles = Vec::new(self.alloc);
        for handle in self.list(index) {
            if self.side(index, *handle, probe) == Some(Ordering::Equal) {
                handles.push(*handle)?;
            }
        }
        Ok(handles)
    }

    // Looks at all views again, and tells whether each is as it should be but for a record that was put in.
    fn shows(&mut self, inserted: Option<Handle>) -> bool {
        let mut same = true;
        for index in 0..self.specs.len() {
            if !self.shows_at(index, inserted) {
                same = false;
            }
        }
        same
    }

    fn shows_at(&mut self, index: usize, inserted: Option<Handle>) -> bool {
        if index >= self.specs.len() {
            return false;
        }
        match self.container.view(index) {
            Ok(view) => {
                let same = is_list_with(&view, self.list(index), inserted);
                self.views.set(index, view);
                same
            }
            Err(_) => false,
        }
    }

    // How a record stands to a search, where the index has a key that it fits.
    fn side(&self, index: usize, handle: Handle, probe: &Probe) -> Option<Ordering> {
        match self.container.get(handle) {
            Ok(row) if self.keys.has(index) && self.keys.fits(index, probe) => {
                Some(self.keys.order_probe(index, row, probe))
            }
            _ => None,
        }
    }

    fn spent(&self) -> Option<Why> {
        if self.container.writes() == u64::MAX {
            Some(Why::Spent)
        } else {
            None
        }
    }

    // Whether the index can be searched by the probe; one that has no key refuses each.
    fn may_search(&self, index: usize, probe: &Probe) -> bool
        ensures in_range { IsTrue result → index < length self.now.specs }
        ensures fits { IsTrue result → IsTrue (has_key_kind (kind_at self.now index)) →
            IsTrue (probe_fits (parts_at self.now.keys index) probe.now) }
        ensures sorted { IsTrue result → IsTrue (is_sorted_kind (kind_at self.now index)) →
            IsTrue (probe_fits (parts_at self.now.keys index) probe.now) }
        ensures ranked { IsTrue result → IsTrue (is_ranked_kind (kind_at self.now index)) →
            IsTrue (probe_fits (parts_at self.now.keys index) probe.now) }
        ensures whole { IsTrue result → IsTrue (is_hashed_kind (kind_at self.now index)) →
            IsTrue (probe_is_whole (parts_at self.now.keys index) probe.now) }
    {
        if index >= self.specs.len() {
            return false;
        }
        match self.specs[index].kind {
            Kind::Sequenced | Kind::Random => true,
            Kind::Ordered | Kind::Ranked => { self.keys.has(index) && self.keys.fits(index, probe) }
            Kind::Hashed => {
                self.keys.has(index)
                    && self.keys.fits(index, probe)
                    && self.keys.whole(index, probe)
            }
        }
    }
}
