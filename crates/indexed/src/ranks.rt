//! Ranks in a ranked index, counted from 0.
ghost use Rattle.std.specs.Prelude.{◌≡◌};
ghost use Rattle.list_model.specs.Place as place;
ghost use Rattle.container_model.specs.Find.{rank as the_rank};
ghost use Rattle.indexed.specs.Viewed.{members, side};

use crate::kinds::Ranked;
use crate::view::View;
use field_keys::{Fields, Search};
use multi_index::{Handle, Why};

impl<'a, R: Fields + Drop> View<'a, R, Ranked> {
    /// The rank of a position: that of the end is the number of records. A handle that names no record is `Stale`. O(log n).
    pub fn rank(&self, position: Option<Handle>) -> Result<u64, Why>
        ensures { result ≡ the_rank self.now.all self.now.number position }
    {
        self.records.rank(self.number, position)
    }

    /// The rank of the first record that has the key, or where none has it the number of records. O(log n).
    pub fn find_rank(&self, search: &Search) -> u64
        ensures { result ≡ place.find_rank (side R.row_of self.now search.now) (members self.now) }
    {
        self.records.find_rank(self.number, search).unwrap()
    }

    /// How many records come before the key. O(log n).
    pub fn lower_rank(&self, search: &Search) -> u64
        ensures { result ≡ place.below (side R.row_of self.now search.now) (members self.now) }
    {
        self.records.lower_rank(self.number, search).unwrap()
    }

    /// How many records do not come after the key. O(log n).
    pub fn upper_rank(&self, search: &Search) -> u64
        ensures { result ≡ place.not_above (side R.row_of self.now search.now) (members self.now) }
    {
        self.records.upper_rank(self.number, search).unwrap()
    }
}
