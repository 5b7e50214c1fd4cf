//! Places and positions.
ghost use Rattle.std.specs.Prelude.{◌<◌, length};

use super::Watched;
use crate::lists::{
    NOT_HASHED, ROWS, WITH_PLACES, WITH_RANKS, after, answer_of, at, before, number, place_of,
};
use crate::tally::{Call, Tallies};
use container_model::{Handle, Kind, Why};

/// A question about a position, which is a record or the end.
#[derive(Clone, Copy)]
pub(crate) enum Step {
    Rank,
    Next,
    Prev,
}

impl Watched {
    /// Compares the records at a place.
    pub(crate) fn nth(&self, index: usize, place: u64, tallies: &mut Tallies)
        requires { index < length self.now.specs }
    {
        let record = at(self.list(index), place as usize);
        let wanted = answer_of(&WITH_PLACES, self.specs[index].kind, record);
        tallies.compare_records(Call::Nth, self.container.nth(index, place), wanted);
    }

    /// Compares the places of a record.
    pub(crate) fn place_of(&self, index: usize, handle: Handle, tallies: &mut Tallies)
        requires { index < length self.now.specs }
    {
        let wanted = number(self.place(&ROWS, index, Some(handle)));
        let answer = self.container.place_of(index, handle);
        tallies.compare_numbers(Call::PlaceOf, answer, wanted);
    }

    /// Compares the answers at a position.
    pub(crate) fn step(
        &self,
        step: Step,
        index: usize,
        position: Option<Handle>,
        tallies: &mut Tallies,
    )
        requires { index < length self.now.specs }
    {
        let list = self.list(index);
        let place = self.place(&NOT_HASHED, index, position);
        match step {
            Step::Rank => tallies.compare_numbers(
                Call::Rank,
                self.container.rank(index, position),
                number(self.place(&WITH_RANKS, index, position)),
            ),
            Step::Next => tallies.compare_records(
                Call::ProjectNext,
                self.container.project_next(index, position),
                after(list, place),
            ),
            Step::Prev => tallies.compare_records(
                Call::ProjectPrev,
                self.container.project_prev(index, position),
                before(list, place),
            ),
        }
    }

    // The place of a position, in an index of one of these kinds.
    fn place(&self, kinds: &[Kind], index: usize, position: Option<Handle>) -> Result<usize, Why>
        requires { index < length self.now.specs }
    {
        place_of(kinds, self.specs[index].kind, self.list(index), position)
    }
}
