//! Records of a group, under an index of each kind.

use indexed::{
    Field, Fields, HASHED, Hashed, Index, Indexed, ORDERED, Ordered, RANDOM, RANKED, Random,
    Ranked, Rising, SEQUENCED, Sequenced, Tag, unsigned,
};
use std::alloc::Global;

/// A record of a group.
#[derive(Clone, Copy)]
pub struct Item {
    pub group: u64,
}

pub(crate) const BY_GROUP: Tag<Ordered> = Tag(0, Ordered);

pub(crate) const RANKS: Tag<Ranked> = Tag(1, Ranked);

pub(crate) const GROUPS: Tag<Hashed> = Tag(2, Hashed);

pub(crate) const SEQUENCE: Tag<Sequenced> = Tag(3, Sequenced);

pub(crate) const ROW: Tag<Random> = Tag(4, Random);

const INDICES: &[Index] = &[
    Index(ORDERED, &[Rising(0)]),
    Index(RANKED, &[Rising(0)]),
    Index(HASHED, &[Rising(0)]),
    Index(SEQUENCED, &[]),
    Index(RANDOM, &[]),
];

impl Fields for Item {
    ghost use Rattle.std.specs.Prelude.{◌∷◌, []};
    ghost use Rattle.indexed.specs.Declaration.{hashed, ordered, random, ranked, sequenced, unsigned};

    ghost row_of = { λ item. unsigned item.group ∷ [] };

    ghost indices = { ordered ∷ ranked ∷ hashed ∷ sequenced ∷ random ∷ [] };

    fn field(&self, column: usize) -> Option<Field<'_>> {
        match column {
            0 => Some(unsigned(self.group)),
            _ => None,
        }
    }
}

/// No records.
pub(crate) fn no_items(alloc: Global) -> Option<Indexed<Item>> {
    Indexed::new(alloc, INDICES, 1000).ok()
}
