//! Changes of the order of one sequence that take no memory.
ghost use Rattle.std.specs.Prelude.{◌≡◌, None, Some, IfErr, OnErr, OnOk};
ghost use Rattle.container_model.specs.Sequence.{relocate_refusal, sequence_refusal, with_relocated, with_reversed};

use crate::container::MultiIndex;
use container_model::{Handle, Refused, Why};
use key_extract::Extract;

impl<R: Drop, E: Extract<R> + Drop> MultiIndex<R, E> {
    /// Moves a record before the place of a sequence, or at the place `len` last. The place counts with the record still in:
    /// its own and the next one leave the list as it is, which is an accepted write too. A refused move changes nothing:
    /// `Kind`, where the index is no sequence, comes before `Stale`, that before `Place`, where the place is past the end, and
    /// that before `Spent`. It takes no memory. O(the distance of the place from the nearer end), in a sequence with places
    /// O(the records between both places).
    pub fn relocate(&mut self, index: usize, place: u64, handle: Handle) -> Result<(), Refused<R>>
        ensures allowed { OnOk result (relocate_refusal self.old index place handle ≡ None) }
        ensures ok { OnOk result (self.new ≡ with_relocated self.old index place handle) }
        ensures why { IfErr result (λ refused. Some refused.why ≡
            relocate_refusal self.old index place handle) }
        ensures handed_back { IfErr result (λ refused. refused.row ≡ None) }
        ensures unchanged { OnErr result (self.new ≡ self.old) }
    {
        match self.set.relocate(index, place, handle, self.writes) {
            Ok(()) => {
                self.writes += 1;
                Ok(())
            }
            Err(why) => Err(Refused { why, row: None }),
        }
    }

    /// Turns the order of a sequence round. A refused one is unchanged: `Kind`, where the index is no sequence, comes before
    /// `Spent`. It takes no memory. O(records).
    pub fn reverse(&mut self, index: usize) -> Result<(), Refused<R>>
        ensures allowed { OnOk result (sequence_refusal self.old index ≡ None) }
        ensures ok { OnOk result (self.new ≡ with_reversed self.old index) }
        ensures why { IfErr result (λ refused. Some refused.why ≡ sequence_refusal self.old index) }
        ensures handed_back { IfErr result (λ refused. refused.row ≡ None) }
        ensures unchanged { OnErr result (self.new ≡ self.old) }
    {
        if let Some(why) = self.sequence_refusal(index) {
            return Err(Refused { why, row: None });
        }
        self.set.reverse(index);
        self.writes += 1;
        Ok(())
    }

    // Why the records of a sequence may not be put into another order.
    pub(crate) fn sequence_refusal(&self, index: usize) -> Option<Why>
        ensures { result ≡ sequence_refusal self.now index }
    {
        if self.has_key(index) {
            return Some(Why::Kind);
        }
        self.spent()
    }
}
