//! Why the program ends.
ghost use Rattle.std.specs.Prelude.{◌≡◌};
ghost use Rattle.table_keeper.specs.Fault.{of_opening, of_recovery, of_schema, of_words, status_of};

use checked_disk::RecoverWhy;
use checked_log::Refusal;
use program_words::WordsFault;
use std::alloc::{AllocError, AllocFailed};
use std::io;
use std::io::{ErrorKind, Write};
use table_log::OpenWhy;
use table_schema::SchemaFault;

/// Why the program ends.
#[derive(Debug, Drop)]
pub enum Fault {
    /// The words are wrong, or ask for help; with the text for the user.
    Words(String),
    /// The address to listen at is of neither form.
    Address,
    /// A file can't be opened, read or made. The path.
    File(String),
    /// What is printed can't be written.
    Output,
    /// The program can't listen.
    Listen,
    /// Memory was refused, or a thread.
    Memory,
    /// The schema is refused.
    Schema(SchemaFault),
    /// Another program has the folder. The path.
    Taken(String),
    /// A log can't be written or synced. The path.
    Log(String),
    /// A line of a log is no accepted write. The path, and the line's number.
    Line(String, u64),
    /// A log is of another declaration than the schema's. The path of the declaration.
    Declared(String),
    /// A line of a state is not that of a state of the table. The path, and the line's number.
    StateLine(String, u64),
    /// What a state tells is no table of the declaration. The path.
    State(String),
    /// A log is behind a state that is not there. The path of the log.
    Behind(String),
    /// A log has writes behind those of the state that it comes before. The path of the log.
    Lacking(String),
    /// A table is declared that has neither a state nor a log. The path of the log.
    Missing(String),
    /// A state can't be written. The path.
    Unwritten(String),
    /// Standard input can't be read.
    Input,
    /// Writes of a log that were known to be on the disk are not whole. The path, and the numbers of the first and the last of them.
    Hurt(String, u64, u64),
    /// A mark is of another log. The path of the mark.
    Mark(String),
    /// A log is one of an older program. The path of the log.
    Old(String),
    /// A log or a mark stands beside the files of an older program. The path.
    Beside(String),
    /// A journal is for a table that has a state or a write. The path of the log.
    Filled(String),
    /// A row of CSV is not taken in. Its line, and why.
    Rows(String),
    /// A table can't have its new declaration. The table, and why.
    Unaltered(String),
}

impl Fault {
    /// Writes the fault's text, as far as the writer takes it, and gives the exit status.
    pub fn report<E: Write>(&self, faults: &mut E) -> u8
        ensures { result ≡ status_of self.now }
    {
        let _ = match self {
            Fault::Words(text) => write!(faults, "{text}"),
            Fault::Address => write!(faults, "listen\n"),
            Fault::File(path) => write!(faults, "device: file: {path}\n"),
            Fault::Output => write!(faults, "device: write\n"),
            Fault::Listen => write!(faults, "device: listen\n"),
            Fault::Memory => write!(faults, "memory\n"),
            Fault::Schema(fault) => write!(faults, "{}\n", schema_text(*fault)),
            Fault::Taken(path) => write!(faults, "taken: {path}\n"),
            Fault::Log(path) => write!(faults, "log: {path}\n"),
            Fault::Line(path, number) => write!(faults, "line: {path}: {number}\n"),
            Fault::Declared(path) => write!(faults, "schema: other: {path}\n"),
            Fault::StateLine(path, number) => write!(faults, "state: {path}: {number}\n"),
            Fault::State(path) => write!(faults, "state: {path}\n"),
            Fault::Behind(path) => write!(faults, "state: none before: {path}\n"),
            Fault::Lacking(path) => write!(faults, "state: too old for: {path}\n"),
            Fault::Missing(path) => write!(faults, "missing: {path}\n"),
            Fault::Unwritten(path) => write!(faults, "compact: {path}\n"),
            Fault::Input => write!(faults, "device: read\n"),
            Fault::Hurt(path, first, last) => {
                write!(faults, "hurt: {path}: writes {first} to {last}\n")
            }
            Fault::Mark(path) => write!(faults, "mark: {path}: of another log\n"),
            Fault::Old(path) => write!(faults, "old: {path}\n"),
            Fault::Beside(path) => write!(faults, "old: others beside: {path}\n"),
            Fault::Filled(path) => write!(faults, "filled: {path}\n"),
            Fault::Rows(why) => write!(faults, "csv: {why}\n"),
            Fault::Unaltered(why) => write!(faults, "alter: {why}\n"),
        };
        self.status()
    }

    /// The exit status.
    pub(crate) fn status(&self) -> u8
        ensures { result ≡ status_of self.now }
    {
        match self {
            Fault::File(_) | Fault::Output | Fault::Input | Fault::Listen | Fault::Memory => 1,
            Fault::Words(_) | Fault::Address => 2,
            Fault::Schema(_) | Fault::Declared(_) => 3,
            Fault::Log(_) => 5,
            Fault::Line(_, _) | Fault::Hurt(_, _, _) | Fault::Rows(_) => 6,
            Fault::Taken(_) => 7,
            Fault::StateLine(_, _)
            | Fault::State(_)
            | Fault::Behind(_)
            | Fault::Lacking(_)
            | Fault::Missing(_)
            | Fault::Mark(_)
            | Fault::Old(_)
            | Fault::Beside(_)
            | Fault::Filled(_) => 8,
            Fault::Unwritten(_) => 9,
            Fault::Unaltered(_) => 10,
        }
    }

    /// The fault of a log that is not opened, at this path.
    pub(crate) fn of_opening(why: OpenWhy, path: String) -> Fault
        ensures { result ≡ of_opening why path }
    {
        match why {
            OpenWhy::Line(number) => Fault::Line(path, number),
            OpenWhy::Memory => Fault::Memory,
            OpenWhy::Disk => Fault::File(path),
        }
    }

    /// The fault of a log that is not recovered, at this path and with its mark at that one.
    pub(crate) fn of_recovery(why: RecoverWhy, path: String, mark: String) -> Fault
        ensures { result ≡ of_recovery why path mark }
    {
        match why {
            RecoverWhy::Memory => Fault::Memory,
            RecoverWhy::Disk => Fault::File(path),
            RecoverWhy::Refused(Refusal::Hurt { whole, durable }) => {
                Fault::Hurt(path, whole.saturating_add(1), durable)
            }
            RecoverWhy::Refused(Refusal::Strange { number: _ }) => Fault::Mark(mark),
        }
    }

    /// The fault of a file, at this path.
    pub(crate) fn of_file(error: &io::Error, path: String) -> Fault {
        match error.kind() {
            ErrorKind::OutOfMemory => Fault::Memory,
            _ => Fault::File(path),
        }
    }
}

// The text of a schema's fault.
fn schema_text(fault: SchemaFault) -> &'static str {
    match fault {
        SchemaFault::Toml => "schema: toml",
        SchemaFault::Shape => "schema: shape",
        SchemaFault::Limit => "schema: limit",
        SchemaFault::Name => "schema: name",
        SchemaFault::Key => "schema: key",
        SchemaFault::Memory => "memory",
    }
}

impl From<AllocError> for Fault {
    ghost use Rattle.table_keeper.specs.declared.fault.Fault.TheVariants.{Memory};

    ghost from_gives = { λ _ fault. fault ≡ Memory };

    fn from(_error: AllocError) -> Fault {
        Fault::Memory
    }
}

impl<T: Drop> From<AllocFailed<T>> for Fault {
    ghost use Rattle.table_keeper.specs.declared.fault.Fault.TheVariants.{Memory};

    ghost from_gives = { λ _ fault. fault ≡ Memory };

    fn from(_error: AllocFailed<T>) -> Fault {
        Fault::Memory
    }
}

impl From<WordsFault> for Fault {
    ghost from_gives = { λ given fault. fault ≡ of_words given };

    fn from(fault: WordsFault) -> Fault {
        match fault {
            WordsFault::Words(text) => Fault::Words(text),
            WordsFault::Listen => Fault::Address,
            WordsFault::Memory => Fault::Memory,
        }
    }
}

impl From<SchemaFault> for Fault {
    ghost from_gives = { λ given fault. fault ≡ of_schema given };

    fn from(fault: SchemaFault) -> Fault {
        match fault {
            SchemaFault::Memory => Fault::Memory,
            refused => Fault::Schema(refused),
        }
    }
}
