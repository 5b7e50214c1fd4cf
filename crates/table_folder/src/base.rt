//! What a table's log begins behind.

ghost use Rattle.std.specs.Prelude.{◌≡◌};
ghost use Rattle.table_folder.specs.Base.{at_state, of_empty, state_in};

use checked_log::Link;

/// What a table's log begins behind.
#[derive(Clone, Copy, Debug, PartialEq, Eq)]
pub struct Base {
    /// Whether that is a state, and not the empty table.
    pub is_state: bool,
    /// Its last write.
    pub link: Link,
    /// The digest of the declaration, with which the log of the empty table begins.
    pub declared: u64,
}

impl Base {
    /// The empty table of a declaration with this digest.
    pub fn empty(declared: u64) -> Base
        ensures { result ≡ of_empty declared }
    {
        Base {
            is_state: false,
            link: Link {
                number: 0,
                digest: declared,
            },
            declared,
        }
    }

    /// The state of this last write.
    pub fn at(self, link: Link) -> Base
        ensures { result ≡ at_state self.declared link }
    {
        Base {
            is_state: true,
            link,
            declared: self.declared,
        }
    }

    /// The write number of the state, where there is one.
    pub fn state(&self) -> Option<u64>
        ensures { result ≡ state_in self.now }
    {
        if self.is_state {
            Some(self.link.number)
        } else {
            None
        }
    }
}
