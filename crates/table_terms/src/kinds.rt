//! The kinds of index that an operation takes.

ghost use Rattle.std.specs.Prelude.{◌≡◌};
ghost use Rattle.container_model.specs.State.{has_key_kind};
ghost use Rattle.table_terms.specs.Kinds.{takes};

use container_model::Kind;

/// The kinds of index that an operation takes.
#[derive(Clone, Copy, Debug, PartialEq, Eq)]
pub enum Kinds {
    /// Each kind.
    All,
    /// Those with a key.
    Keyed,
    /// Those in the order of a key.
    Sorted,
    /// Those with ranks.
    Ranked,
    /// Those whose records are found by their places.
    Counted,
    /// The sequences whose places can be counted.
    Random,
    /// Those that keep an order of one's own.
    Sequence,
    /// Those whose records have a next one.
    Walked,
}

impl Kinds {
    /// Whether a kind is one of them.
    pub(crate) fn takes(self, kind: Kind) -> bool
        ensures { result ≡ takes self kind }
    {
        match self {
            Kinds::All => true,
            Kinds::Keyed => has_key(kind),
            Kinds::Sorted => has_key(kind) && kind != Kind::Hashed,
            Kinds::Ranked => kind == Kind::Ranked,
            Kinds::Counted => kind == Kind::Ranked || kind == Kind::Random,
            Kinds::Random => kind == Kind::Random,
            Kinds::Sequence => !has_key(kind),
            Kinds::Walked => kind != Kind::Hashed,
        }
    }
}

// Whether an index of the kind has a key.
fn has_key(kind: Kind) -> bool
    ensures { result ≡ has_key_kind kind }
{
    match kind {
        Kind::Ordered | Kind::Ranked | Kind::Hashed => true,
        Kind::Sequenced | Kind::Random => false,
    }
}
