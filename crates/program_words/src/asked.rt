//! The answers to the words of a program.
ghost use Rattle.std.specs.Prelude.{◌≡◌};

use crate::Address;
use std::alloc::AllocError;
use thiserror::Error;

/// What the program is asked to do.
#[derive(Clone, Copy, Debug, PartialEq, Eq)]
pub enum Asked<'a> {
    /// Answer lines until they end.
    Run {
        /// The file of the schema; none is the built-in schema.
        schema: Option<&'a str>,
        /// The file of the lines; none is standard input.
        commands: Option<&'a str>,
    },
    /// Answer the lines of connections, until all threads have served theirs.
    Serve {
        /// The file of the schema.
        schema: &'a str,
        /// Where connections come in.
        listen: Address<'a>,
        /// How many threads serve them, from 1 to 16.
        workers: u32,
        /// How many connections each thread serves, from 1 to 1,000,000.
        each: u32,
        /// The file for the accepted writes, if they are kept.
        journal: Option<&'a str>,
    },
}

/// Why words are not read.
#[derive(Debug, Drop, Error)]
pub enum WordsFault {
    /// The words are wrong, or ask for help. The text is for the user, and ends with a newline.
    #[error("{0}")]
    Words(String),
    /// The address to listen at is of neither form.
    #[error("listen")]
    Listen,
    /// Memory was refused.
    #[error("memory")]
    Memory,
}

impl From<AllocError> for WordsFault {
    ghost use Rattle.program_words.specs.declared.asked.WordsFault.TheVariants.{Memory};

    ghost from_gives = { λ _ fault. fault ≡ Memory };

    fn from(_error: AllocError) -> WordsFault {
        WordsFault::Memory
    }
}
