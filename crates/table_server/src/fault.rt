//! Why the program ends before its lines do.
ghost use Rattle.std.specs.Prelude.{◌≡◌};
ghost use Rattle.std.specs.IoError.{error_kind};
ghost use Rattle.table_server.specs.Fault.{IsTold, of_file, of_schema, of_stream, of_words, of_written, status_of, text_of};

use program_words::WordsFault;
use std::alloc::AllocError;
use std::io;
use std::io::{ErrorKind, Write};
use table_engine::{Sink, StreamFault};
use table_schema::SchemaFault;

/// Why the program ends before its lines do.
#[derive(Debug, Drop)]
pub enum Fault {
    /// A read failed, or a file can't be opened.
    Read,
    /// A write failed.
    Write,
    /// The program can't listen, or no connection could be accepted.
    Listen,
    /// Memory was refused.
    Memory,
    /// The words are wrong, or ask for help; with the text for the user.
    Words(String),
    /// The address to listen at is of neither form.
    Address,
    /// The schema is refused.
    Schema(SchemaFault),
    /// What a session was told and a journal did not fit.
    Mismatch,
}

impl Fault {
    /// Writes the fault's text, as far as the writer takes it, and gives the exit status.
    pub fn report<E: Write>(&self, faults: &mut Sink<E>) -> u8
        ensures status { result ≡ status_of self.now }
        ensures told { IsTold E.contents faults.old faults.new (text_of self.now) }
    {
        let _ = faults.write_all(self.text().as_bytes());
        self.status()
    }

    /// The fault of a file that is to be written.
    pub(crate) fn of_write(error: io::Error) -> Fault
        ensures { result ≡ of_written (error_kind error) }
    {
        match error.kind() {
            ErrorKind::OutOfMemory => Fault::Memory,
            _ => Fault::Write,
        }
    }

    /// The exit status.
    pub(crate) fn status(&self) -> u8
        ensures { result ≡ status_of self.now }
    {
        match self {
            Fault::Read | Fault::Write | Fault::Listen | Fault::Memory => 1,
            Fault::Words(_) | Fault::Address => 2,
            Fault::Schema(_) => 3,
            Fault::Mismatch => 4,
        }
    }

    /// The text for the user, with its newline.
    fn text(&self) -> &str
        ensures { result.now ≡ text_of self.now }
    {
        match self {
            Fault::Read => "device: read\n",
            Fault::Write => "device: write\n",
            Fault::Listen => "device: listen\n",
            Fault::Memory => "memory\n",
            Fault::Words(text) => text.as_str(),
            Fault::Address => "listen\n",
            Fault::Mismatch => "mismatch\n",
            Fault::Schema(fault) => match fault {
                SchemaFault::Toml => "schema: toml\n",
                SchemaFault::Shape => "schema: shape\n",
                SchemaFault::Limit => "schema: limit\n",
                SchemaFault::Name => "schema: name\n",
                SchemaFault::Key => "schema: key\n",
                SchemaFault::Memory => "memory\n",
            },
        }
    }
}

/// The fault of a file that is opened or read.
impl From<io::Error> for Fault {
    ghost from_gives = { λ given fault. fault ≡ of_file (error_kind given) };

    fn from(error: io::Error) -> Fault {
        match error.kind() {
            ErrorKind::OutOfMemory => Fault::Memory,
            _ => Fault::Read,
        }
    }
}

impl From<AllocError> for Fault {
    ghost use Rattle.table_server.specs.declared.fault.Fault.TheVariants.{Memory};

    ghost from_gives = { λ _ fault. fault ≡ Memory };

    fn from(_error: AllocError) -> Fault {
        Fault::Memory
    }
}

impl From<WordsFault> for Fault {
    ghost from_gives = { λ given fault. fault ≡ of_words given };

    fn from(fault: WordsFault) -> Fault {
        match fault {
            WordsFault::Words(text) => Fault::Words(text),
            WordsFault::Listen => Fault::Address,
            WordsFault::Memory => Fault::Memory,
        }
    }
}

impl From<SchemaFault> for Fault {
    ghost from_gives = { λ given fault. fault ≡ of_schema given };

    fn from(fault: SchemaFault) -> Fault {
        match fault {
            SchemaFault::Memory => Fault::Memory,
            refused => Fault::Schema(refused),
        }
    }
}

impl From<StreamFault> for Fault {
    ghost from_gives = { λ given fault. fault ≡ of_stream given };

    fn from(fault: StreamFault) -> Fault {
        match fault {
            StreamFault::Read => Fault::Read,
            StreamFault::Write => Fault::Write,
            StreamFault::Memory => Fault::Memory,
        }
    }
}
