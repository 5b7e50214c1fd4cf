//! Indices of both containers that come and go.
ghost use Rattle.std.specs.Prelude.{◌≡◌, ◌<◌, ◌++◌, ◌∷◌, [], IfErr, IfOk, OnErr, Some, is_some, length};
ghost use Rattle.container_model.specs.State.{KeysMatch};
ghost use Rattle.key_extract.specs.Keys.{key_at};

use super::{Pair, keys_match};
use crate::index_tally::Event;
use crate::indices::Index;
use crate::tally::{Count, Tally};
use container_model::{Refused, Why};
use key_extract::{Probe, RowKeys};
use std::alloc::AllocError;

// Why keys were not taken; nothing where they are not handed back.
fn handed_back(refused: &Refused<RowKeys>) -> Option<Result<(), Why>> {
    match &refused.row {
        Some(_) => Some(Err(refused.why)),
        None => None,
    }
}

impl Pair {
    /// Adds an index to both, the last, and compares all views. Where it is added, the look-ups by it, also of these keys, are
    /// compared with those of a container that was made with it.
    pub(crate) fn add_index(
        &mut self,
        index: &Index,
        probes: &[Probe],
        tally: &mut Tally,
    ) -> Result<(), AllocError> {
        let keys = self.keys.with(index.key())?;
        let answer = self.add_to_container(index, tally)?;
        let alloc = self.alloc();
        let wanted = self.plain.add_index(alloc, index.spec, keys);
        self.count_added(index, wanted, tally);
        let same = wanted.is_err() || self.same_look_ups(index, probes, tally)?;
        let same = same && answer == Some(wanted);
        self.compare(Count::Added, wanted.err(), same, tally);
        Ok(())
    }

    // Adds an index to the container; where memory is refused, which changes no view, once more with the keys that are handed
    // back. Answers nothing where they are not.
    fn add_to_container(
        &mut self,
        index: &Index,
        tally: &mut Tally,
    ) -> Result<Option<Result<(), Why>>, AllocError> {
        let keys = self.keys.with(index.key())?;
        let indices = self.indices.with(index)?;
        if !keys_match(&keys, &indices.specs) {
            return Ok(None);
        }
        match self.add_once(index, keys)? {
            Ok(()) => Ok(Some(Ok(()))),
            Err(
                Refused {
                    why: Why::Memory,
                    row: Some(keys),
                },
            ) => {
                tally.call(Some(Why::Memory), self.same_views() && self.same_sizes());
                match self.add_once(index, keys)? {
                    Ok(()) => Ok(Some(Ok(()))),
                    Err(refused) => Ok(handed_back(&refused)),
                }
            }
            Err(refused) => Ok(handed_back(&refused)),
        }
    }

    fn add_once(
        &mut self,
        index: &Index,
        keys: RowKeys,
    ) -> Result<Result<(), Refused<RowKeys>>, AllocError>
        requires keys { keys ≡ self.old.keys ++ index.now.key ∷ [] }
        requires matching { KeysMatch (λ i. is_some (key_at keys i))
            (self.old.specs ++ index.now.spec ∷ []) }
        ensures handed_back { IfOk result (λ answer. IfErr answer
            (λ refused. refused.row ≡ Some keys)) }
        ensures unchanged { IfOk result (λ answer. OnErr answer (self.new ≡ self.old)) }
    {
        let indices = self.indices.with(index)?;
        let kept = self.keys.with(index.key())?;
        match self.container.add_index(index.spec, keys) {
            Ok(()) => {
                self.keys = kept;
                self.indices = indices;
                Ok(Ok(()))
            }
            Err(refused) => Ok(Err(refused)),
        }
    }

    /// Takes an index out of both, and compares all views.
    pub(crate) fn drop_index(&mut self, index: usize, tally: &mut Tally) -> Result<(), AllocError>
        requires { index < length self.old.specs }
    {
        let keys = self.keys.without(index)?;
        let answer = self.drop_from_container(index)?;
        let wanted = self.plain.drop_index(index, keys);
        tally.index(match wanted {
            Ok(()) => Event::Dropped,
            Err(Why::Definition) => Event::OnlyOne,
            Err(_) => Event::DropSpent,
        });
        self.compare(Count::Dropped, wanted.err(), answer == Some(wanted), tally);
        Ok(())
    }

    // Takes an index out of the container. Answers nothing where the keys are not handed back.
    fn drop_from_container(&mut self, index: usize) -> Result<Option<Result<(), Why>>, AllocError>
        requires { index < length self.old.specs }
    {
        let indices = self.indices.without(index)?;
        let keys = self.keys.without(index)?;
        let kept = self.keys.without(index)?;
        if !keys_match(&keys, &indices.specs) {
            return Ok(None);
        }
        match self.container.drop_index(index, keys) {
            Ok(()) => {
                self.keys = kept;
                self.indices = indices;
                Ok(Some(Ok(())))
            }
            Err(refused) => Ok(handed_back(&refused)),
        }
    }

    // Counts an index that was to be added, and what it was added to.
    fn count_added(&self, index: &Index, wanted: Result<(), Why>, tally: &mut Tally) {
        match wanted {
            Ok(()) => {
                tally.index(Event::added(index.spec));
                tally.index_if(self.plain.is_empty(), Event::WithoutRecords);
                tally.index_if(self.was_cleared, Event::AfterClear);
                tally.index_if(self.plain.most() < 8, Event::OfFewer);
            }
            Err(Why::Definition) => tally.index(Event::OneTooMany),
            Err(Why::Clash { .. }) => {
                tally.index(Event::Clash);
                tally.index_if(self.plain.writes() == u64::MAX, Event::ClashAtEnd);
            }
            Err(_) => tally.index(Event::AddSpent),
        }
    }
}
