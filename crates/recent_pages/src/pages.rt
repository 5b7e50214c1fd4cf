//! The record of a table, its indices, and a search for each key, as `tools/new_record` writes them of these words:
//!
//! ```text
//! pages number:int
//! latest: sequenced
//! by_number: unique hashed number
//! max=3
//! ```
ghost use Rattle.std.specs.Prelude.{◌≡◌, ◌∷◌, [], false};
ghost use Rattle.indexed.specs.Declaration.{signed};

use indexed::{
    Field, Fields, Hashed, Index, Rising, SEQUENCED, Search, Sequenced, Tag, UNIQUE_HASHED, signed,
};

/// A record of the table `pages`.
#[derive(Clone, Copy, Debug)]
pub struct Page {
    pub number: i64,
}

// The number of each column.
impl Page {
    pub const NUMBER: usize = 0;
}

/// A sequence in an order of its own.
pub const LATEST: Tag<Sequenced> = Tag(0, Sequenced);

/// Hashed and unique, by `number`.
pub const BY_NUMBER: Tag<Hashed> = Tag(1, Hashed);

/// The most records that there may be.
pub const MOST: u32 = 3;

/// The indices, for `Indexed::new`.
pub const INDICES: &[Index] = &[
    Index(SEQUENCED, &[]),
    Index(UNIQUE_HASHED, &[Rising(Page::NUMBER)]),
];

impl Fields for Page {
    ghost use Rattle.std.specs.Prelude.{◌∷◌, []};
    ghost use Rattle.indexed.specs.Declaration.{sequenced, signed, unique_hashed};

    ghost row_of = { λ row. signed row.number ∷ [] };

    ghost indices = { sequenced ∷ unique_hashed ∷ [] };

    fn field(&self, column: usize) -> Option<Field<'_>> {
        match column {
            Page::NUMBER => Some(signed(self.number.into())),
            _ => None,
        }
    }
}

/// A search at `BY_NUMBER` for the records whose key is this.
pub fn by_number(number: i64) -> Search
    ensures { result ≡ record { leading = false; cells = signed number ∷ [] } }
{
    Search::signed(number.into())
}
