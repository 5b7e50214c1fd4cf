//! The record of a table, its indices, and a search for each key, as `tools/new_record` writes them of these words:
//!
//! ```text
//! words english:text spanish:text
//! by_english: unique hashed english
//! by_spanish: unique hashed spanish
//! max=1000
//! ```
ghost use Rattle.std.specs.Prelude.{◌≡◌, ◌∷◌, [], false, IfOk};
ghost use Rattle.indexed.specs.Declaration.{text};

use indexed::{Field, Fields, Hashed, Index, Rising, Search, Tag, Text, UNIQUE_HASHED, text};
use std::alloc::{AllocError, Global};

/// A record of the table `words`.
#[derive(Debug, Drop)]
pub struct Word {
    pub english: Text,
    pub spanish: Text,
}

// The number of each column.
impl Word {
    pub const ENGLISH: usize = 0;

    pub const SPANISH: usize = 1;
}

/// Hashed and unique, by `english`.
pub const BY_ENGLISH: Tag<Hashed> = Tag(0, Hashed);

/// Hashed and unique, by `spanish`.
pub const BY_SPANISH: Tag<Hashed> = Tag(1, Hashed);

/// The most records that there may be.
pub const MOST: u32 = 1000;

/// The indices, for `Indexed::new`.
pub const INDICES: &[Index] = &[
    Index(UNIQUE_HASHED, &[Rising(Word::ENGLISH)]),
    Index(UNIQUE_HASHED, &[Rising(Word::SPANISH)]),
];

impl Fields for Word {
    ghost use Rattle.std.specs.Prelude.{◌∷◌, []};
    ghost use Rattle.indexed.specs.Declaration.{text, unique_hashed};

    ghost row_of = { λ row. text row.english ∷ text row.spanish ∷ [] };

    ghost indices = { unique_hashed ∷ unique_hashed ∷ [] };

    fn field(&self, column: usize) -> Option<Field<'_>> {
        match column {
            Word::ENGLISH => Some(text(self.english.as_str())),
            Word::SPANISH => Some(text(self.spanish.as_str())),
            _ => None,
        }
    }
}

impl Word {
    /// An equal record, to be changed and put in the place of this one by `replace`.
    pub fn copy(&self) -> Result<Word, AllocError>
        ensures { IfOk result (λ copy. copy ≡ self.now) }
    {
        Ok(Word {
            english: self.english.copy()?,
            spanish: self.spanish.copy()?,
        })
    }
}

/// A search at `BY_ENGLISH` for the records whose key is this.
pub fn by_english(alloc: Global, english: &str) -> Result<Search, AllocError>
    ensures { IfOk result (λ found. found ≡ record {
      leading = false;
      cells = text english.now ∷ [];
    }) }
{
    Search::text(alloc, english)
}

/// A search at `BY_SPANISH` for the records whose key is this.
pub fn by_spanish(alloc: Global, spanish: &str) -> Result<Search, AllocError>
    ensures { IfOk result (λ found. found ≡ record {
      leading = false;
      cells = text spanish.now ∷ [];
    }) }
{
    Search::text(alloc, spanish)
}
