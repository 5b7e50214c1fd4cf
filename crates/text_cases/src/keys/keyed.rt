//! Rows under a key.
ghost use Rattle.std.specs.Prelude.{◌≡◌, length};

use super::signs::{agreed, sign_of};
use key_extract::{Extract, KeySpec, Probe, Row, RowKeys, RowOrder, RowSort};
use std::alloc::{AllocError, Global};
use std::cmp::Ordering;

// The most indices.
const MOST: usize = 5;

/// Rows, and a key of theirs at one of some indices, at first the second of two.
#[derive(Drop)]
pub(crate) struct Keyed {
    keys: RowKeys,
    // How many indices there are.
    count: usize,
    // The index that has the key.
    index: usize,
    sort: RowSort,
    rows: Vec<Row>,
    ghost counted: { length keys ≡ count },
}

impl Keyed {
    /// No rows under a key, if there is one.
    pub(crate) fn new(alloc: Global, key: Option<KeySpec>) -> Result<Option<Keyed>, AllocError> {
        let Some(key) = key else {
            return Ok(None);
        };
        Ok(Some(Keyed {
            keys: RowKeys::new(alloc, &[None, Some(key.copy())])?,
            count: 2,
            index: 1,
            sort: RowSort::new(key),
            rows: Vec::new(alloc),
        }))
    }

    /// Adds an index, with this key or none, and says which indices have one.
    pub(crate) fn tell_with(
        &mut self,
        alloc: Global,
        key: Option<KeySpec>,
    ) -> Result<String, AllocError> {
        if self.count < MOST {
            let keys = self.keys.with(key)?;
            self.keys = keys;
            self.count += 1;
        }
        self.tell_indices(alloc)
    }

    /// Drops an index other than the one that has the key of the rows, and says which indices have a key.
    pub(crate) fn tell_without(
        &mut self,
        alloc: Global,
        index: usize,
    ) -> Result<String, AllocError> {
        if index < self.count && index != self.index {
            let keys = self.keys.without(index)?;
            self.keys = keys;
            self.count -= 1;
            if index < self.index {
                self.index -= 1;
            }
        }
        self.tell_indices(alloc)
    }

    /// Which indices have a key, and that the one behind them has none.
    pub(crate) fn tell_indices(&self, alloc: Global) -> Result<String, AllocError> {
        let mut said = String::from_str(alloc, " ")?;
        for index in 0..=self.count.min(MOST) {
            said.push_str(if self.keys.has(index) { " yes" } else { " no" })?;
        }
        said.push('\n')?;
        Ok(said)
    }

    // How the first row stands to the second.
    fn sign(&self, a: &Row, b: &Row) -> char {
        if !self.keys.has(self.index) {
            return '?';
        }
        let order = self.keys.order(self.index, a, b);
        let is_same = self.keys.same(self.index, a, b) == (order == Ordering::Equal);
        let is_turned = self.keys.order(self.index, b, a) == order.reverse();
        agreed(
            order,
            is_same && is_turned && self.sort.compare(a, b) == order,
        )
    }

    // Whether two rows share their hash.
    fn hash_sign(&self, a: &Row, b: &Row) -> char {
        if !self.keys.has(self.index) {
            return '?';
        }
        if self.keys.hash(self.index, a) == self.keys.hash(self.index, b) {
            '='
        } else {
            '.'
        }
    }

    /// Takes a row, and says how it stands to the rows so far and to itself.
    pub(crate) fn tell_row(&mut self, alloc: Global, row: Row) -> Result<String, AllocError> {
        let mut said = String::from_str(alloc, "  ")?;
        let copy = row.copy()?;
        said.push_str(if copy.cells() == row.cells() {
            ""
        } else {
            "no copy "
        })?;
        self.rows.push(copy)?;
        for other in &self.rows {
            said.push(self.sign(&row, other))?;
        }
        said.push(' ')?;
        for other in &self.rows {
            said.push(self.hash_sign(&row, other))?;
        }
        said.push('\n')?;
        Ok(said)
    }

    // How a row stands to a search.
    fn probe_sign(&self, row: &Row, probe: &Probe) -> char {
        if self.keys.has(self.index) && self.keys.fits(self.index, probe) {
            return sign_of(self.keys.order_probe(self.index, row, probe));
        }
        '?'
    }

    // Whether a row has the hash of a whole key.
    fn probe_hash_sign(&self, row: &Row, probe: &Probe) -> char {
        if self.keys.has(self.index) && self.keys.whole(self.index, probe) {
            let is_same = self.keys.hash_probe(self.index, probe)
                == self.keys.hash(self.index, row);
            return if is_same { '=' } else { '.' };
        }
        '?'
    }

    // What a search is to the key.
    fn kind(&self, probe: &Probe) -> &'static str {
        if !self.keys.has(self.index) || !self.keys.fits(self.index, probe) {
            return "no search";
        }
        if self.keys.whole(self.index, probe) {
            "whole key"
        } else {
            "part of a key"
        }
    }

    /// Says what a search is to the key and to the rows so far.
    pub(crate) fn tell_probe(&self, alloc: Global, probe: &Probe) -> Result<String, AllocError> {
        let copy = probe.copy()?;
        let mut said = format!(in alloc; "  {} ", self.kind(&copy))?;
        said.push_str(if copy.cells() == probe.cells() {
            ""
        } else {
            "no copy "
        })?;
        for row in &self.rows {
            said.push(self.probe_sign(row, probe))?;
        }
        said.push(' ')?;
        for row in &self.rows {
            said.push(self.probe_hash_sign(row, probe))?;
        }
        said.push('\n')?;
        Ok(said)
    }
}
