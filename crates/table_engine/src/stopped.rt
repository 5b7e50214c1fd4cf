//! Why lines were not answered to the end of their stream.

ghost use Rattle.std.specs.Prelude.{◌≡◌};

use crate::sink::Unwritten;

/// Why a stream was not served to its end.
#[derive(Clone, Copy, Debug)]
pub enum Stopped<F> {
    /// A read failed, or 4,294,967,295 reads were made.
    Read,
    /// A write failed, or took no byte.
    Write,
    /// Memory was refused before anything was read.
    Memory,
    /// A line was refused.
    Refused(F),
}

impl<F> From<Unwritten> for Stopped<F> {
    ghost use Rattle.table_engine.specs.declared.stopped.Stopped.TheVariants.{Write};

    ghost from_gives = { λ _ stopped. stopped ≡ Write };

    fn from(_unwritten: Unwritten) -> Stopped<F> {
        Stopped::Write
    }
}
