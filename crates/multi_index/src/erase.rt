//! Taking records out.
ghost use Rattle.std.specs.Prelude.{◌≡◌, ◌+◌, option_and_then, None, Some, IfErr, IfOk, OnErr, OnOk, false};
ghost use Rattle.std.specs.Option.{option_map_or};
ghost use Rattle.container_model.specs.Find.{kind_at};
ghost use Rattle.container_model.specs.State.{is_hashed_kind, row_of};
ghost use Rattle.container_model.specs.Change.{erase_refusal, next_in, with_erased};

use crate::container::MultiIndex;
use container_model::{Handle, Refused, Why};
use key_extract::Extract;

/// What an erasure took out.
#[derive(Drop)]
pub struct Erased<R> {
    /// The record.
    pub row: R,
    /// The record after it, where an index was named and it was not the last one there.
    pub next: Option<Handle>,
}

impl<R: Drop, E: Extract<R> + Drop> MultiIndex<R, E> {
    /// Takes a record out of every index. Where an index is named, the answer also names the record after it there. A
    /// refusal changes nothing: `Kind`, where that index is hashed, comes before `Stale`, and that before `Spent`. It takes
    /// no memory. O(log n) for each index, but O(the records behind it) in one whose places can be counted.
    pub fn erase(&mut self, handle: Handle, index: Option<usize>) -> Result<Erased<R>, Refused<R>>
        ensures row { IfOk result (λ erased. row_of self.old.entries handle ≡ Some erased.row) }
        ensures next { IfOk result (λ erased. erased.next ≡
            option_and_then (λ i. next_in self.old i handle) index) }
        ensures allowed { OnOk result (erase_refusal self.old handle index ≡ None) }
        ensures ok { OnOk result (self.new ≡ with_erased self.old handle) }
        ensures why { IfErr result (λ refused. Some refused.why ≡
            erase_refusal self.old handle index) }
        ensures handed_back { IfErr result (λ refused. refused.row ≡ None) }
        ensures unchanged { OnErr result (self.new ≡ self.old) }
    {
        if self.names_hashed(index) {
            return Err(Refused {
                why: Why::Kind,
                row: None,
            });
        }
        let limit = self.spent();
        match self.set.take_out(handle, index, limit) {
            Ok((row, next)) => {
                self.writes += 1;
                Ok(Erased { row, next })
            }
            Err(why) => Err(Refused { why, row: None }),
        }
    }

    // Whether an index is named, and has no order in which a record could be the next.
    fn names_hashed(&self, index: Option<usize>) -> bool
        ensures { result ≡ option_map_or (λ i. is_hashed_kind (kind_at self.now i)) index false }
    {
        match index {
            Some(index) => self.is_hashed(index),
            None => false,
        }
    }
}
