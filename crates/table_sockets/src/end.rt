//! How threads end.
ghost use Rattle.std.specs.Prelude.{◌≡◌, ◌≤◌, ◌⊎◌};
ghost use Rattle.table_sockets.specs.End.{end_after, ended_by, later};

use shared_tables::{Gate, Pass, ServeFault, Shared};

/// How the threads ended: of several ends the last in this list.
#[derive(Clone, Copy, Debug, PartialEq, Eq)]
pub enum End {
    /// Each served all its connections.
    Fine,
    /// Memory was refused, or a thread could not be started.
    Memory,
    /// No connection could be accepted.
    Listen,
    /// A pass and a journal did not fit.
    Mismatch,
}

/// The tables and the passes, handed back, and how the threads ended.
#[derive(Drop)]
pub struct Done<G: Gate> {
    pub shared: Shared<G>,
    pub passes: Vec<Pass>,
    pub end: End,
}

impl End {
    /// The end that a fault of a connection makes of its thread. A fault of the connection's reads or writes makes none.
    pub(crate) fn by(fault: ServeFault) -> Option<End>
        ensures { result ≡ ended_by fault }
    {
        match fault {
            ServeFault::Read | ServeFault::Write => None,
            ServeFault::Memory => Some(End::Memory),
            ServeFault::Call(_) => Some(End::Mismatch),
        }
    }

    /// The end that the serving of a connection makes of its thread.
    pub(crate) fn after(served: Result<(), ServeFault>) -> Option<End>
        ensures { result ≡ end_after served }
    {
        match served {
            Ok(()) => None,
            Err(fault) => End::by(fault),
        }
    }

    /// The one of two that stands later in the list.
    pub(crate) fn later(self, other: End) -> End
        ensures { result ≡ later self other }
    {
        match (self, other) {
            (End::Mismatch, _) | (_, End::Mismatch) => End::Mismatch,
            (End::Listen, _) | (_, End::Listen) => End::Listen,
            (End::Memory, _) | (_, End::Memory) => End::Memory,
            (End::Fine, End::Fine) => End::Fine,
        }
    }
}
