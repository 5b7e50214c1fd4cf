//! The parts of keys.
ghost use Rattle.std.specs.Prelude.{◌≡◌};
ghost use Rattle.field_keys.specs.Fields.{part_of};

/// One column of a key, from 0.
#[derive(Clone, Copy, Debug, PartialEq, Eq)]
pub enum KeyPart {
    /// From its least field up.
    Rising(usize),
    /// From its greatest field down.
    Falling(usize),
}

impl KeyPart {
    // The column.
    pub(crate) fn column(&self) -> usize
        ensures { result ≡ (part_of self.now).column }
    {
        match self {
            KeyPart::Rising(column) | KeyPart::Falling(column) => *column,
        }
    }
}
