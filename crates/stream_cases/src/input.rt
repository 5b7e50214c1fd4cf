//! What standard input holds.

use crate::repeats::spelled_out;
use schema_file::read_schema;
use std::alloc::Global;
use std::io;
use std::io::BufRead;
use table_schema::{Schema, SchemaFault};

/// The lines that are sent, without their newlines.
#[derive(Drop)]
pub struct Stream {
    /// What it is called.
    pub name: Vec<u8>,
    pub lines: Vec<Vec<u8>>,
}

/// A schema file, and streams on its tables.
#[derive(Drop)]
pub struct Input {
    schema: Vec<u8>,
    pub streams: Vec<Stream>,
}

impl Input {
    pub fn read(rt: &HostRuntime) -> io::Result<Input> {
        let alloc = rt.alloc();
        let mut input = Input {
            schema: Vec::new(alloc),
            streams: Vec::new(alloc),
        };
        for line in rt.reader().split(alloc, b'\n') {
            input.take(alloc, &line?)?;
        }
        Ok(input)
    }

    fn take(&mut self, alloc: Global, line: &[u8]) -> io::Result<()> {
        if let [b'=', b'=', b'=', b' ', name @ ..] = line {
            self.streams.push(Stream {
                name: name.to_vec(alloc)?,
                lines: Vec::new(alloc),
            })?;
        } else if let Some(stream) = self.streams.last_mut() {
            stream.lines.push(spelled_out(alloc, line)?)?;
        } else {
            self.schema.extend_from_slice(line)?;
            self.schema.push(b'\n')?;
        }
        Ok(())
    }

    /// The schema that the file says.
    pub fn schema(&self, alloc: Global) -> Result<Schema, SchemaFault> {
        read_schema(alloc, &self.schema)
    }
}
