//! A container under indices that its records declare, each borrowed by a name of its kind.
#![tactic(auto)]

mod arrange;
mod change;
mod container;
mod edit;
mod group;
mod kinds;
mod places;
mod ranks;
mod sequence;
mod stop;
mod view;

pub use container::Indexed;
pub use field_keys::{
    Falling, Field, FieldKeys, Fields, HASHED, Index, KeyPart, ORDERED, RANDOM, RANKED, Rising,
    SEQUENCED, Search, Text, UNIQUE_HASHED, UNIQUE_ORDERED, UNIQUE_RANKED, Value, signed, text,
    truth, unsigned,
};
pub use key_extract::RowOrder;
pub use kinds::{
    Arranged, Hashed, IndexKind, Keyed, Ordered, Placed, Random, Ranked, Sequenced, Sorted, Tag,
    Walked,
};
pub use multi_index::{Edit, Erased, Handle, Iter, Modified, MultiIndex, Refused, RowEdit, Why};
pub use view::View;
