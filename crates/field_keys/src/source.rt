//! Where the keys of a table stand.
ghost use Rattle.std.specs.Prelude.{◌≡◌, map};
ghost use Rattle.field_keys.specs.Fields.{part_of};
ghost use Rattle.field_keys.specs.Indices.{keys_in};
ghost use Rattle.field_keys.specs.Values.{key_at};

use crate::index::Index;
use crate::part::KeyPart;

/// A table of keys, one for each index.
#[derive(Clone, Copy)]
pub(crate) enum Source {
    Keys(&'static [&'static [KeyPart]]),
    Declared(&'static [Index]),
}

impl Source {
    // The parts of the index's key.
    pub(crate) fn parts(&self, index: usize) -> &[KeyPart]
        ensures { map part_of result.now ≡ key_at (keys_in self.now) index }
    {
        match self {
            Source::Keys(keys) if index < keys.len() => keys[index],
            Source::Declared(indices) if index < indices.len() => indices[index].1,
            _ => &[],
        }
    }
}
