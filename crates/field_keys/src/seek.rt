//! Searches for one value.
ghost use Rattle.std.specs.Prelude.{◌≡◌, ◌∷◌, [], IfOk, false};
ghost use Rattle.field_keys.specs.Row as row;

use crate::search::{Search, Value};
use key_extract::Text;
use std::alloc::{AllocError, Global};

impl Search {
    /// A search for a whole key, whose first part is a number without a sign. O(1).
    #[inline(always)]
    pub fn unsigned(number: u64) -> Search
        ensures { result ≡ record { leading = false; cells = row.unsigned number ∷ [] } }
    {
        Search::of(Value::Number(number.into()))
    }

    /// A search for a whole key, whose first part is a number with a sign. O(1).
    #[inline(always)]
    pub fn signed(number: i128) -> Search
        ensures { result ≡ record { leading = false; cells = row.signed number ∷ [] } }
    {
        Search::of(Value::Number(number))
    }

    /// A search for a whole key, whose first part is a text, of which it owns a copy. O(length).
    pub fn text(alloc: Global, text: &str) -> Result<Search, AllocError>
        ensures { IfOk result (λ search. search ≡
            record { leading = false; cells = row.text text.now ∷ [] }) }
    {
        Ok(Search::of(Value::Text(Text::copy_of(alloc, text)?)))
    }
}
