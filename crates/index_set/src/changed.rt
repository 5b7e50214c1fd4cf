//! At which indices the key of a record has changed.
ghost use Rattle.std.specs.Prelude.{◌≡◌, ℕ, ◌≤◌, ◌&&◌, IsTrue, true, length, not};
ghost use Rattle.std.specs.Ordering.{is_eq};
ghost use Rattle.container_model.specs.State.{KeysMatch, has_key_kind};
ghost use Rattle.index_set.specs.Changed.{may_differ, differs};

use container_model::{Kind, Spec};
use key_extract::Extract;

/// The indices of a set at which the key of a record may have changed.
#[derive(Clone, Copy)]
pub struct Changed {
    at: [bool; 8],
}

// Whether an index of the kind compares records by this key, and the two have not the same one.
fn differs_at<R, E: Extract<R>>(keys: &E, kind: Kind, index: usize, before: &R, after: &R) -> bool
    requires { IsTrue (has_key_kind kind) → IsTrue (E.has_key keys.now index) }
    ensures { result ≡ (has_key_kind kind && not (is_eq (E.order_of keys.now index after.now before.now))) }
{
    match kind {
        Kind::Sequenced | Kind::Random => false,
        Kind::Ordered | Kind::Ranked | Kind::Hashed => !keys.same(index, after, before),
    }
}

impl Changed {
    /// All indices. O(1).
    pub(crate) fn all() -> Changed
        ensures { (index : ℕ) → may_differ result index ≡ true }
    {
        Changed { at: [true; 8] }
    }

    /// The indices at which two records have different keys. A comparison for each index that has a key.
    pub(crate) fn between<R, E: Extract<R>>(
        keys: &E,
        specs: &[Spec],
        before: &R,
        after: &R,
    ) -> Changed
        requires few { length specs.now ≤ 8 }
        requires keys { KeysMatch (E.has_key keys.now) specs.now }
        ensures { (index : ℕ) → may_differ result index ≡
            differs (E.order_of keys.now) specs.now after.now before.now index }
    {
        let mut at = [true; 8];
        for index in 0..specs.len() {
            at[index] = differs_at(keys, specs[index].kind, index, before, after);
        }
        Changed { at }
    }

    // Whether the key may have changed at an index.
    pub(crate) fn has(self, index: usize) -> bool
        ensures { result ≡ may_differ self index }
    {
        index >= self.at.len() || self.at[index]
    }
}
