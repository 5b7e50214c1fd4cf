//! Why a log is not recovered.

ghost use Rattle.std.specs.Prelude.{◌≡◌};
ghost use Rattle.checked_disk.specs.declared.fault.RecoverWhy.TheVariants.{Memory};

use checked_log::Refusal;
use std::alloc::AllocError;

/// Why a log is not recovered.
#[derive(Clone, Copy, Debug, PartialEq, Eq)]
pub enum RecoverWhy {
    /// Memory was refused.
    Memory,
    /// The file could not be read.
    Disk,
    /// The log is refused as it stands.
    Refused(Refusal),
}

/// The files, handed back as they were.
#[derive(Drop)]
pub struct RecoverFault<F> {
    pub files: F,
    pub why: RecoverWhy,
}

impl From<AllocError> for RecoverWhy {
    ghost from_gives = { λ _ why. why ≡ Memory };

    fn from(_error: AllocError) -> RecoverWhy {
        RecoverWhy::Memory
    }
}
