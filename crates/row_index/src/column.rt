//! The column of links of a row.
ghost use Rattle.std.specs.Prelude.{◌≡◌, ◌<◌};
ghost use Rattle.row_index.specs.Spelled.{col_of};

use crate::RowIndex;

impl RowIndex {
    /// The column of links in which the row's nodes keep their places. O(1).
    pub fn col(&self) -> usize
        ensures col { result ≡ col_of self.now }
        ensures exists { result < 8 }
    {
        self.col
    }
}
