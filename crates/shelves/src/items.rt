//! The record of a table, its indices, and a search for each key, as `tools/new_record` writes them of these words:
//!
//! ```text
//! items sku:int shelf:int due:int
//! by_number: unique hashed sku
//! by_shelf: ordered shelf -due
//! by_day: ranked due
//! max=1000
//! ```
ghost use Rattle.std.specs.Prelude.{◌≡◌, ◌∷◌, [], false, true};
ghost use Rattle.indexed.specs.Declaration.{signed};

use indexed::{
    Falling, Field, Fields, Hashed, Index, ORDERED, Ordered, RANKED, Ranked, Rising, Search, Tag,
    UNIQUE_HASHED, Value, signed,
};

/// A record of the table `items`.
#[derive(Clone, Copy, Debug)]
pub struct Item {
    pub sku: i64,
    pub shelf: i64,
    pub due: i64,
}

// The number of each column.
impl Item {
    pub const SKU: usize = 0;

    pub const SHELF: usize = 1;

    pub const DUE: usize = 2;
}

/// Hashed and unique, by `sku`.
pub const BY_NUMBER: Tag<Hashed> = Tag(0, Hashed);

/// Ordered, by `shelf`, then `due` from the greatest down.
pub const BY_SHELF: Tag<Ordered> = Tag(1, Ordered);

/// Ordered with ranks, by `due`.
pub const BY_DAY: Tag<Ranked> = Tag(2, Ranked);

/// The most records that there may be.
pub const MOST: u32 = 1000;

/// The indices, for `Indexed::new`.
pub const INDICES: &[Index] = &[
    Index(UNIQUE_HASHED, &[Rising(Item::SKU)]),
    Index(ORDERED, &[Rising(Item::SHELF), Falling(Item::DUE)]),
    Index(RANKED, &[Rising(Item::DUE)]),
];

impl Fields for Item {
    ghost use Rattle.std.specs.Prelude.{◌∷◌, []};
    ghost use Rattle.indexed.specs.Declaration.{ordered, ranked, signed, unique_hashed};

    ghost row_of = { λ row. signed row.sku ∷ signed row.shelf ∷ signed row.due ∷ [] };

    ghost indices = { unique_hashed ∷ ordered ∷ ranked ∷ [] };

    fn field(&self, column: usize) -> Option<Field<'_>> {
        match column {
            Item::SKU => Some(signed(self.sku.into())),
            Item::SHELF => Some(signed(self.shelf.into())),
            Item::DUE => Some(signed(self.due.into())),
            _ => None,
        }
    }
}

/// A search at `BY_NUMBER` for the records whose key is this.
pub fn by_number(sku: i64) -> Search
    ensures { result ≡ record { leading = false; cells = signed sku ∷ [] } }
{
    Search::signed(sku.into())
}

/// A search at `BY_SHELF` for the records whose key is this.
pub fn by_shelf(shelf: i64, due: i64) -> Search
    ensures { result ≡ record { leading = false; cells = signed shelf ∷ signed due ∷ [] } }
{
    Search::signed(shelf.into()).and(Value::Number(due.into()))
}

/// A search at `BY_SHELF` for the records whose key begins with this.
pub fn by_shelf_leading(shelf: i64) -> Search
    ensures { result ≡ record { leading = true; cells = signed shelf ∷ [] } }
{
    Search::signed(shelf.into()).leading()
}

/// A search at `BY_DAY` for the records whose key is this.
pub fn by_day(due: i64) -> Search
    ensures { result ≡ record { leading = false; cells = signed due ∷ [] } }
{
    Search::signed(due.into())
}
