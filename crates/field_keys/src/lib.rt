//! Keys of records by their fields: the fields from one plain function, the keys from a table, and no law to show.
#![tactic(auto)]

mod compare;
mod field;
mod hash;
mod index;
mod keys;
mod part;
mod row;
mod search;
mod seek;
mod source;

pub use field::{Field, Fields};
pub use index::{
    HASHED, Index, ORDERED, RANDOM, RANKED, SEQUENCED, UNIQUE_HASHED, UNIQUE_ORDERED,
    UNIQUE_RANKED, specs_of,
};
pub use key_extract::Text;
pub use keys::FieldKeys;
pub use part::KeyPart;
pub use part::KeyPart::{Falling, Rising};
pub use row::{signed, text, truth, unsigned};
pub use search::{Search, Value};
