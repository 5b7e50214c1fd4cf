//! The column of links of a hashed index.
ghost use Rattle.std.specs.Prelude.{◌≡◌, ◌<◌};
ghost use Rattle.hash_index.specs.Spelled.{col_of};

use crate::HashIndex;

impl HashIndex {
    /// The column of links that the chains go through. O(1).
    pub fn col(&self) -> usize
        ensures col { result ≡ col_of self.now }
        ensures exists { result < 8 }
    {
        self.col
    }
}
