//! Indices as a program declares them.
ghost use Rattle.std.specs.Prelude.{◌≡◌, IfOk};
ghost use Rattle.field_keys.specs.Indices.{declared_specs};

use crate::part::KeyPart;
use container_model::{Kind, Spec};
use std::alloc::{AllocError, Global};

/// A sequence of one's own.
pub const SEQUENCED: Spec = Spec {
    kind: Kind::Sequenced,
    unique: false,
};

/// A sequence whose places can be counted.
pub const RANDOM: Spec = Spec {
    kind: Kind::Random,
    unique: false,
};

/// In the order of a key.
pub const ORDERED: Spec = Spec {
    kind: Kind::Ordered,
    unique: false,
};

/// In the order of a key that no two records share.
pub const UNIQUE_ORDERED: Spec = Spec {
    kind: Kind::Ordered,
    unique: true,
};

/// In the order of a key, with ranks.
pub const RANKED: Spec = Spec {
    kind: Kind::Ranked,
    unique: false,
};

/// In the order of a key that no two records share, with ranks.
pub const UNIQUE_RANKED: Spec = Spec {
    kind: Kind::Ranked,
    unique: true,
};

/// Found by a whole key.
pub const HASHED: Spec = Spec {
    kind: Kind::Hashed,
    unique: false,
};

/// Found by a whole key that no two records share.
pub const UNIQUE_HASHED: Spec = Spec {
    kind: Kind::Hashed,
    unique: true,
};

/// One index of a container: what it is, and the parts of its key, none where it compares nothing.
#[derive(Clone, Copy, Debug)]
pub struct Index(pub Spec, pub &'static [KeyPart]);

/// What each of the indices is, in their order. O(indices).
pub fn specs_of(alloc: Global, indices: &[Index]) -> Result<Vec<Spec>, AllocError>
    ensures { IfOk result (λ specs. specs.items ≡ declared_specs indices.now) }
{
    let mut specs = Vec::with_capacity(alloc, indices.len())?;
    for index in indices {
        specs.push(index.0)?;
    }
    Ok(specs)
}
