//! The kinds of index as types, and what an index of each can do.
ghost use Rattle.std.specs.Prelude.{◌≡◌, IsTrue, not, refl};
ghost use Rattle.container_model.specs.declared.handle.Kind.{Kind};
ghost use Rattle.container_model.specs.State.{has_key_kind, has_places_kind, is_hashed_kind, is_sequence_kind, is_sorted_kind};

use multi_index::Kind;

/// A kind of index.
pub trait IndexKind: Copy {
    /// What a declaration calls it.
    ghost kind: { Kind };

    /// What a declaration calls it. O(1).
    fn kind() -> Kind
        ensures { result ≡ kind };
}

/// A kind that has a key.
pub trait Keyed: IndexKind {
    ghost keyed: { IsTrue (has_key_kind Self.kind) };
}

/// A kind in the order of a key.
pub trait Sorted: Keyed {
    ghost sorted: { IsTrue (is_sorted_kind Self.kind) };
}

/// A kind with an order, so that its records can be gone over.
pub trait Walked: IndexKind {
    ghost walked: { IsTrue (not (is_hashed_kind Self.kind)) };
}

/// A kind whose places can be counted.
pub trait Placed: IndexKind {
    ghost placed: { IsTrue (has_places_kind Self.kind) };
}

/// A kind with an order of one's own.
pub trait Arranged: IndexKind {
    ghost arranged: { IsTrue (is_sequence_kind Self.kind) };
}

/// A sequence of one's own.
#[derive(Clone, Copy, Debug)]
pub struct Sequenced;

/// A sequence whose places can be counted.
#[derive(Clone, Copy, Debug)]
pub struct Random;

/// In the order of a key.
#[derive(Clone, Copy, Debug)]
pub struct Ordered;

/// In the order of a key, with ranks.
#[derive(Clone, Copy, Debug)]
pub struct Ranked;

/// Found by a whole key.
#[derive(Clone, Copy, Debug)]
pub struct Hashed;

/// The name of an index: its number in the declaration, and its kind.
#[derive(Clone, Copy, Debug)]
pub struct Tag<K>(pub usize, pub K);

impl IndexKind for Sequenced {
    ghost kind = { Kind.Sequenced };

    fn kind() -> Kind {
        Kind::Sequenced
    }
}

impl IndexKind for Random {
    ghost kind = { Kind.Random };

    fn kind() -> Kind {
        Kind::Random
    }
}

impl IndexKind for Ordered {
    ghost kind = { Kind.Ordered };

    fn kind() -> Kind {
        Kind::Ordered
    }
}

impl IndexKind for Ranked {
    ghost kind = { Kind.Ranked };

    fn kind() -> Kind {
        Kind::Ranked
    }
}

impl IndexKind for Hashed {
    ghost kind = { Kind.Hashed };

    fn kind() -> Kind {
        Kind::Hashed
    }
}

impl Keyed for Ordered {
    ghost keyed = { refl };
}

impl Keyed for Ranked {
    ghost keyed = { refl };
}

impl Keyed for Hashed {
    ghost keyed = { refl };
}

impl Sorted for Ordered {
    ghost sorted = { refl };
}

impl Sorted for Ranked {
    ghost sorted = { refl };
}

impl Walked for Sequenced {
    ghost walked = { refl };
}

impl Walked for Random {
    ghost walked = { refl };
}

impl Walked for Ordered {
    ghost walked = { refl };
}

impl Walked for Ranked {
    ghost walked = { refl };
}

impl Placed for Random {
    ghost placed = { refl };
}

impl Placed for Ranked {
    ghost placed = { refl };
}

impl Arranged for Sequenced {
    ghost arranged = { refl };
}

impl Arranged for Random {
    ghost arranged = { refl };
}
