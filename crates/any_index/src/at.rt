//! An index with the store of its nodes and their keys, borrowed.
ghost use Rattle.std.specs.Prelude.{◌≡◌};

use crate::index::AnyIndex;
use key_extract::Extract;
use node_store::NodeStore;
use std::marker::Model;

/// An index whose nodes stand where their records' keys put them, as long as it is borrowed with their store and their keys.
#[derive(Drop)]
pub struct IndexRef<'a, R, E: Extract<R>> {
    pub(crate) index: &'a AnyIndex,
    pub(crate) store: &'a NodeStore<R>,
    pub(crate) keys: &'a E,
}

impl<'a, R, E: Extract<R>> Model for IndexRef<'a, R, E> {
    ghost use Rattle.any_index.specs.At.{At, at_code};

    ghost Value = { At R E };

    ghost coded = { at_code R.code E.code };

    ghost use Rattle.any_index.specs.Stored.{IsFiled};

    ghost view = { λ a. record { index = a.index.now; store = a.store.now; keys = a.keys.now } };

    ghost invariant = { λ a. IsFiled E.Extract a.index.now a.store.now a.keys.now };
}

impl<'a, R, E: Extract<R>> IndexRef<'a, R, E> {
    ghost use Rattle.any_index.specs.Stored.{IsFiled};

    /// The index with the store of its nodes and their keys. O(1).
    #[inline(always)]
    pub fn new(index: &'a AnyIndex, store: &'a NodeStore<R>, keys: &'a E) -> IndexRef<'a, R, E>
        requires { IsFiled E.Extract index.now store.now keys.now }
        ensures { result ≡ record { index = index.now; store = store.now; keys = keys.now } }
    {
        IndexRef { index, store, keys }
    }
}
