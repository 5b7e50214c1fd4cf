//! A connection as a reader and as a writer.

use crate::accepts::Accepts;
use std::io;
use std::io::{Read, Write};

/// What comes of a connection.
#[derive(Drop)]
pub(crate) struct Reading<'a, L: Accepts> {
    pub(crate) listening: &'a L,
    pub(crate) connection: &'a L::Connection,
    pub(crate) input: L::Input,
}

/// What is written to a connection.
#[derive(Drop)]
pub(crate) struct Writing<'a, L: Accepts> {
    pub(crate) listening: &'a L,
    pub(crate) connection: &'a L::Connection,
    pub(crate) output: L::Output,
}

impl<'a, L: Accepts> Read for Reading<'a, L> {
    ghost remaining = { λ r. (L.known r.listening.now).remaining r.input };

    fn read(&mut self, buf: &mut [u8]) -> io::Result<usize> {
        self.listening.read(self.connection, &mut self.input, buf)
    }
}

impl<'a, L: Accepts> Write for Writing<'a, L> {
    ghost contents = { λ w. (L.known w.listening.now).contents w.output };

    fn write(&mut self, buf: &[u8]) -> io::Result<usize> {
        self.listening.write(self.connection, &mut self.output, buf)
    }

    fn flush(&mut self) -> io::Result<()> {
        self.listening.flush(self.connection, &mut self.output)
    }
}
