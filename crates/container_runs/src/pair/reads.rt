//! Questions to both containers.

use super::Pair;
use super::answers::is_row;
use crate::tally::{Count, Tally};
use container_model::Handle;
use key_extract::Probe;

impl Pair {
    /// Compares the numbers of records and of writes.
    pub(crate) fn sizes(&self, tally: &mut Tally) {
        tally.call(None, self.same_sizes());
    }

    /// Compares the rows of a handle.
    pub(crate) fn get(&self, handle: Handle, tally: &mut Tally) {
        let wanted = self.plain.get(handle);
        let same = match self.container.get(handle) {
            Ok(row) => is_row(row, wanted),
            Err(why) => wanted.err() == Some(why),
        };
        tally.call(wanted.err(), same);
    }

    /// Compares the first records of a key, where the index can be searched by it.
    pub(crate) fn find(&self, index: usize, probe: &Probe, tally: &mut Tally) {
        if self.may_search(index, probe) {
            let wanted = self.plain.find(index, probe);
            let answer = self.container.find(index, probe);
            tally.count_if(matches!(wanted, Ok(Some(_))), Count::Found);
            tally.call(wanted.err(), answer == wanted);
        }
    }

    /// Compares how many records have a key, where the index can be searched by it.
    pub(crate) fn count(&self, index: usize, probe: &Probe, tally: &mut Tally) {
        if self.may_search(index, probe) {
            let wanted = self.plain.count(index, probe);
            let answer = self.container.count(index, probe);
            tally.count_if(matches!(wanted, Ok(1..)), Count::Found);
            tally.call(wanted.err(), answer == wanted);
        }
    }
}
