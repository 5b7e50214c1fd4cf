//! What is printed.

use itoa::Buffer;
use std::alloc::{AllocError, Global};
use table_sockets::End;

/// Bytes to be printed.
#[derive(Drop)]
pub struct Report {
    bytes: Vec<u8>,
}

impl Report {
    /// No bytes.
    pub fn new(alloc: Global) -> Report {
        Report {
            bytes: Vec::new(alloc),
        }
    }

    pub fn bytes(&self) -> &[u8] {
        &self.bytes
    }

    /// Adds bytes.
    pub fn push(&mut self, bytes: &[u8]) -> Result<(), AllocError> {
        self.bytes.extend_from_slice(bytes)
    }

    /// Adds a text.
    pub fn text(&mut self, text: &str) -> Result<(), AllocError> {
        self.push(text.as_bytes())
    }

    /// Adds the digits of a number.
    pub fn number(&mut self, number: u64) -> Result<(), AllocError> {
        self.text(Buffer::new().format(number))
    }

    /// Adds whether something holds.
    pub fn whether(&mut self, what: &str, holds: bool) -> Result<(), AllocError> {
        self.text(what)?;
        self.text(if holds { ": yes\n" } else { ": no\n" })
    }

    /// Adds how a service ends.
    pub fn end(&mut self, end: End) -> Result<(), AllocError> {
        self.text(match end {
            End::Fine => "  fine\n",
            End::Memory => "  memory\n",
            End::Listen => "  no connection\n",
            End::Mismatch => "  a mismatch\n",
        })
    }
}
