//! What standard input holds.

use schema_file::read_schema;
use std::alloc::Global;
use std::io;
use std::io::BufRead;
use table_schema::{Schema, SchemaFault};

/// Lines under a name.
#[derive(Drop)]
pub struct Case {
    pub name: Vec<u8>,
    pub lines: Vec<Vec<u8>>,
}

/// A schema file, and cases on its tables.
#[derive(Drop)]
pub struct Input {
    schema: Vec<u8>,
    pub cases: Vec<Case>,
}

impl Input {
    /// Reads standard input to its end.
    pub fn read(rt: &HostRuntime) -> io::Result<Input> {
        let alloc = rt.alloc();
        let mut input = Input {
            schema: Vec::new(alloc),
            cases: Vec::new(alloc),
        };
        for line in rt.reader().split(alloc, b'\n') {
            input.take(alloc, line?)?;
        }
        Ok(input)
    }

    fn take(&mut self, alloc: Global, line: Vec<u8>) -> io::Result<()> {
        if let [b'=', b'=', b'=', b' ', name @ ..] = line.as_slice() {
            self.cases.push(Case {
                name: name.to_vec(alloc)?,
                lines: Vec::new(alloc),
            })?;
        } else if let Some(case) = self.cases.last_mut() {
            case.lines.push(line)?;
        } else {
            self.schema.extend_from_slice(&line)?;
            self.schema.push(b'\n')?;
        }
        Ok(())
    }

    /// The schema that the file says.
    pub fn schema(&self, alloc: Global) -> Result<Schema, SchemaFault> {
        read_schema(alloc, &self.schema)
    }
}
