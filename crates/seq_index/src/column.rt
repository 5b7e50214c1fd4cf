//! The column of links of a chain.
ghost use Rattle.std.specs.Prelude.{◌≡◌, ◌<◌};
ghost use Rattle.seq_index.specs.Spelled.{col_of};

use crate::SeqIndex;

impl SeqIndex {
    /// The column of links that the chain goes through. O(1).
    pub fn col(&self) -> usize
        ensures col { result ≡ col_of self.now }
        ensures exists { result < 8 }
    {
        self.col
    }
}
