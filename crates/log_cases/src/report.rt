//! What is printed.

use itoa::{Buffer, Integer};
use std::alloc::{AllocError, Global};
use table_log::OpenWhy;

/// Bytes to be printed.
#[derive(Drop)]
pub struct Report {
    bytes: Vec<u8>,
}

impl Report {
    /// No bytes.
    pub fn new(alloc: Global) -> Report {
        Report {
            bytes: Vec::new(alloc),
        }
    }

    pub fn bytes(&self) -> &[u8] {
        &self.bytes
    }

    /// Adds a text.
    pub fn text(&mut self, text: &[u8]) -> Result<(), AllocError> {
        self.bytes.extend_from_slice(text)
    }

    /// Adds texts.
    pub fn texts(&mut self, texts: &[&[u8]]) -> Result<(), AllocError> {
        for text in texts {
            self.text(text)?;
        }
        Ok(())
    }

    /// Adds what stands before a number, its digits, and what stands behind it.
    pub fn number<I: Integer>(
        &mut self,
        before: &[u8],
        number: I,
        after: &[u8],
    ) -> Result<(), AllocError> {
        let mut buffer = Buffer::new();
        self.texts(&[before, buffer.format(number).as_bytes(), after])
    }

    /// Adds the lines of bytes, and what stands behind the last newline.
    pub fn contents(&mut self, bytes: &[u8]) -> Result<(), AllocError> {
        for line in bytes.split(|byte| *byte == b'\n') {
            self.texts(&[b"  | ", line, b"\n"])?;
        }
        Ok(())
    }

    /// Adds why a log is not opened.
    pub fn unopened(&mut self, why: OpenWhy) -> Result<(), AllocError> {
        match why {
            OpenWhy::Line(number) => self.number(b"  line ", number, b"\n"),
            OpenWhy::Memory => self.texts(&[b"  memory\n"]),
            OpenWhy::Disk => self.texts(&[b"  the disk failed\n"]),
        }
    }
}
