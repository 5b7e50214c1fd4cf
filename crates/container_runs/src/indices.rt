//! Sets of indices, read from a text. Each word is an index: its kind, `!` where it is unique or `:` where it is not,
//! and the columns of its key, with `-` before a falling one.

ghost use Rattle.std.specs.Prelude.{◌≡◌, ◌<◌, ◌++◌, ◌∷◌, [], IfOk, length, remove};

use arrayvec::ArrayVec;
use container_model::{Kind, Spec};
use key_extract::{KeySpec, Part};
use std::alloc::{AllocError, Global};

/// One index, with its key where it has one.
#[derive(Drop)]
pub(crate) struct Index {
    pub(crate) spec: Spec,
    pub(crate) key: Option<KeySpec>,
}

impl Index {
    pub(crate) fn read(word: &str) -> Index {
        Index {
            spec: Spec {
                kind: kind_of(word),
                unique: word.as_bytes().contains(&b'!'),
            },
            key: key_of(word),
        }
    }

    /// The same key.
    pub(crate) fn key(&self) -> Option<KeySpec>
        ensures { result ≡ self.now.key }
    {
        self.key.as_ref().map(|key| key.copy())
    }
}

/// The indices of a container.
#[derive(Drop)]
pub(crate) struct Indices {
    pub(crate) specs: Vec<Spec>,
    pub(crate) keys: Vec<Option<KeySpec>>,
}

impl Indices {
    pub(crate) fn read(alloc: Global, text: &str) -> Result<Indices, AllocError> {
        let mut specs = Vec::new(alloc);
        let mut keys = Vec::new(alloc);
        for word in text.split_whitespace() {
            let index = Index::read(word);
            specs.push(index.spec)?;
            keys.push(index.key)?;
        }
        Ok(Indices { specs, keys })
    }

    /// How many indices have a kind, and a place for a key each.
    pub(crate) fn len(&self) -> usize
        ensures { result ≡ length self.now.specs.items }
    {
        self.specs.len()
    }

    /// The same indices, newly allocated.
    pub(crate) fn copy(&self) -> Result<Indices, AllocError>
        ensures specs { IfOk result (λ made. made.specs.items ≡ self.now.specs.items) }
        ensures keys { IfOk result (λ made. made.keys.items ≡ self.now.keys.items) }
    {
        let alloc = *self.specs.allocator();
        let mut keys = Vec::with_capacity(alloc, self.keys.len())?;
        for key in &self.keys {
            keys.push(key.as_ref().map(|key| key.copy()))?;
        }
        let specs = self.specs.to_vec(alloc)?;
        Ok(Indices { specs, keys })
    }

    /// These indices and one more, the last.
    pub(crate) fn with(&self, index: &Index) -> Result<Indices, AllocError>
        ensures specs { IfOk result (λ made. made.specs.items ≡
            self.now.specs.items ++ index.now.spec ∷ []) }
        ensures keys { IfOk result (λ made. made.keys.items ≡
            self.now.keys.items ++ index.now.key ∷ []) }
    {
        let mut made = self.copy()?;
        made.specs.push(index.spec)?;
        made.keys.push(index.key())?;
        Ok(made)
    }

    /// These indices but one.
    pub(crate) fn without(&self, index: usize) -> Result<Indices, AllocError>
        requires specs { index < length self.now.specs.items }
        requires keys { index < length self.now.keys.items }
        ensures specs { IfOk result (λ made. made.specs.items ≡ remove self.now.specs.items index) }
        ensures keys { IfOk result (λ made. made.keys.items ≡ remove self.now.keys.items index) }
    {
        let mut made = self.copy()?;
        made.specs.remove(index);
        made.keys.remove(index);
        Ok(made)
    }
}

fn kind_of(word: &str) -> Kind {
    if word.starts_with("random") {
        Kind::Random
    } else if word.starts_with("ordered") {
        Kind::Ordered
    } else if word.starts_with("ranked") {
        Kind::Ranked
    } else if word.starts_with("hashed") {
        Kind::Hashed
    } else {
        Kind::Sequenced
    }
}

fn key_of(word: &str) -> Option<KeySpec> {
    let mut parts = ArrayVec::new();
    let mut falling = false;
    for byte in word.as_bytes() {
        if *byte == b'-' {
            falling = true;
        } else if let b'0'..=b'9' = *byte {
            let column = (*byte - b'0') as usize;
            let _ = parts.try_push(Part { column, falling });
            falling = false;
        }
    }
    if parts.is_empty() {
        None
    } else {
        Some(KeySpec::new(parts))
    }
}
