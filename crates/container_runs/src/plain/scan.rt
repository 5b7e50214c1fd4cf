//! Scans of one index's list.

use super::PlainIndex;
use container_model::Handle;
use key_extract::{Extract, Probe, Row};
use std::cmp::Ordering;

impl PlainIndex {
    // How the record of a handle stands to a row, if there is one and the index has a key.
    fn side(&self, index: usize, handle: Handle, row: &Row) -> Option<Ordering> {
        match self.get(handle) {
            Ok(record) if self.keys.has(index) => Some(self.keys.order(index, record, row)),
            _ => None,
        }
    }

    // How the record at a place of an index stands to a row, if there is one.
    pub(super) fn side_at(&self, index: usize, place: usize, row: &Row) -> Option<Ordering> {
        self.side(index, *self.view(index).get(place)?, row)
    }

    // Whether a handle's record has the key, if there is one and the index can be searched by it.
    fn is_equal(&self, index: usize, handle: Handle, probe: &Probe) -> bool {
        match self.get(handle) {
            Ok(record) if self.keys.has(index) && self.keys.fits(index, probe) => {
                self.keys.order_probe(index, record, probe).is_eq()
            }
            _ => false,
        }
    }

    // How many records of an index do not come after the row.
    pub(super) fn upper_place(&self, index: usize, row: &Row) -> usize {
        let mut place = 0usize;
        for handle in self.view(index) {
            if self.side(index, *handle, row) != Some(Ordering::Greater) {
                place = place.saturating_add(1);
            }
        }
        place
    }

    // The first record of an index, but for the excepted one, that has the row's key.
    pub(super) fn first_same(
        &self,
        index: usize,
        row: &Row,
        except: Option<Handle>,
    ) -> Option<Handle> {
        for handle in self.view(index) {
            if Some(*handle) != except && self.side(index, *handle, row) == Some(Ordering::Equal) {
                return Some(*handle);
            }
        }
        None
    }

    // The first record of an index that has the key.
    pub(super) fn first_equal(&self, index: usize, probe: &Probe) -> Option<Handle> {
        for handle in self.view(index) {
            if self.is_equal(index, *handle, probe) {
                return Some(*handle);
            }
        }
        None
    }

    // How many records of an index have the key.
    pub(super) fn count_equal(&self, index: usize, probe: &Probe) -> u64 {
        let mut count = 0u64;
        for handle in self.view(index) {
            if self.is_equal(index, *handle, probe) {
                count = count.saturating_add(1);
            }
        }
        count
    }
}
