//! What is printed.

use itoa::{Buffer, Integer};
use std::alloc::{AllocError, Global};

/// Bytes to be printed.
#[derive(Drop)]
pub struct Report {
    bytes: Vec<u8>,
}

impl Report {
    /// No bytes.
    pub fn new(alloc: Global) -> Report {
        Report {
            bytes: Vec::new(alloc),
        }
    }

    pub fn bytes(&self) -> &[u8] {
        &self.bytes
    }

    /// Leaves no bytes.
    pub fn clear(&mut self) {
        self.bytes.clear();
    }

    /// Adds bytes.
    pub fn push(&mut self, bytes: &[u8]) -> Result<(), AllocError> {
        self.bytes.extend_from_slice(bytes)
    }

    /// Adds a text.
    pub fn text(&mut self, text: &str) -> Result<(), AllocError> {
        self.push(text.as_bytes())
    }

    /// Adds the digits of a number.
    pub fn number<I: Integer>(&mut self, number: I) -> Result<(), AllocError> {
        let mut buffer = Buffer::new();
        self.push(buffer.format(number).as_bytes())
    }
}
