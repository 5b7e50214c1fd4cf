//! What standard input holds.

use schema_file::read_schema;
use std::alloc::Global;
use std::io;
use std::io::BufRead;
use table_schema::{Schema, SchemaFault};

/// A schema file, and the lines below it.
#[derive(Drop)]
pub struct Input {
    schema: Vec<u8>,
    has_schema: bool,
    pub lines: Vec<Vec<u8>>,
}

impl Input {
    pub fn read(rt: &HostRuntime) -> io::Result<Input> {
        let alloc = rt.alloc();
        let mut input = Input {
            schema: Vec::new(alloc),
            has_schema: false,
            lines: Vec::new(alloc),
        };
        for line in rt.reader().split(alloc, b'\n') {
            input.take(line?)?;
        }
        Ok(input)
    }

    fn take(&mut self, line: Vec<u8>) -> io::Result<()> {
        if self.has_schema {
            self.lines.push(line)?;
        } else if line.as_slice() == b"---".as_slice() {
            self.has_schema = true;
        } else {
            self.schema.extend_from_slice(&line)?;
            self.schema.push(b'\n')?;
        }
        Ok(())
    }

    /// The schema that the file says.
    pub fn schema(&self, alloc: Global) -> Result<Schema, SchemaFault> {
        read_schema(alloc, &self.schema)
    }
}
