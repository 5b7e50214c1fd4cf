//! The record of a table, its indices, and a search for each key, as `tools/new_record` writes them of these words:
//!
//! ```text
//! bids number:int price:int ends:int?
//! by_number: unique hashed number
//! by_price: ordered -price
//! by_end: ordered ends
//! max=1000
//! ```
ghost use Rattle.std.specs.Prelude.{◌≡◌, ◌∷◌, [], false};
ghost use Rattle.indexed.specs.Declaration.{if_some, signed};

use indexed::{
    Falling, Field, Fields, Hashed, Index, ORDERED, Ordered, Rising, Search, Tag, UNIQUE_HASHED,
    Value, signed,
};

/// A record of the table `bids`.
#[derive(Clone, Copy, Debug)]
pub struct Bid {
    pub number: i64,
    pub price: i64,
    pub ends: Option<i64>,
}

// The number of each column.
impl Bid {
    pub const NUMBER: usize = 0;

    pub const ENDS: usize = 1;

    pub const PRICE: usize = 2;
}

/// Hashed and unique, by `number`.
pub const BY_NUMBER: Tag<Hashed> = Tag(0, Hashed);

/// Ordered, by `price` from the greatest down.
pub const BY_PRICE: Tag<Ordered> = Tag(1, Ordered);

/// Ordered, by `ends`.
pub const BY_END: Tag<Ordered> = Tag(2, Ordered);

/// The most records that there may be.
pub const MOST: u32 = 1000;

/// The indices, for `Indexed::new`.
pub const INDICES: &[Index] = &[
    Index(UNIQUE_HASHED, &[Rising(Bid::NUMBER)]),
    Index(ORDERED, &[Falling(Bid::PRICE)]),
    Index(ORDERED, &[Rising(Bid::ENDS)]),
];

impl Fields for Bid {
    ghost use Rattle.std.specs.Prelude.{◌∷◌, []};
    ghost use Rattle.indexed.specs.Declaration.{if_some, ordered, signed, unique_hashed};

    ghost row_of = { λ row. signed row.number ∷ if_some signed row.ends ∷ signed row.price ∷ [] };

    ghost indices = { unique_hashed ∷ ordered ∷ ordered ∷ [] };

    fn field(&self, column: usize) -> Option<Field<'_>> {
        match column {
            Bid::NUMBER => Some(signed(self.number.into())),
            Bid::ENDS => Some(match self.ends {
                Some(it) => signed(it.into()),
                None => Field::Absent,
            }),
            Bid::PRICE => Some(signed(self.price.into())),
            _ => None,
        }
    }
}

/// A search at `BY_NUMBER` for the records whose key is this.
pub fn by_number(number: i64) -> Search
    ensures { result ≡ record { leading = false; cells = signed number ∷ [] } }
{
    Search::signed(number.into())
}

/// A search at `BY_PRICE` for the records whose key is this.
pub fn by_price(price: i64) -> Search
    ensures { result ≡ record { leading = false; cells = signed price ∷ [] } }
{
    Search::signed(price.into())
}

/// A search at `BY_END` for the records whose key is this.
pub fn by_end(ends: Option<i64>) -> Search
    ensures { result ≡ record { leading = false; cells = if_some signed ends ∷ [] } }
{
    let ends = match ends {
        Some(ends) => Value::Number(ends.into()),
        None => Value::Absent,
    };
    Search::of(ends)
}
