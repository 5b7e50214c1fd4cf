//! Tables in memory.

ghost use Rattle.std.specs.Prelude.{◌<◌, ◌∷◌, [], ℕ, MatchResult, length};
ghost use Rattle.schema_file.specs.Meaning.{schema_of};
ghost use Rattle.table_schema.specs.Meaning.{Fails};
ghost use Rattle.table_engine.specs.Run.{bytes_of, end};

use crate::status::{MEMORY, OK};
use schema_file::read_schema;
use std::alloc::Global;
use table_engine::Engine;
use table_reply::Out;
use table_schema::SchemaFault;

/// Tables in memory, with one stream of lines.
#[derive(Drop)]
pub struct Memory {
    engine: Engine,
    ghost one_stream: { 0 < length engine.unfinished },
}

impl Memory {
    ghost use Rattle.tables_c.specs.Calls.{AreFresh, Carries};

    // The empty tables of a schema file.
    pub(crate) fn new(alloc: Global, schema: &[u8]) -> Result<Memory, SchemaFault>
        ensures { MatchResult result (λ memory. AreFresh (schema_of schema.now) memory.engine) (λ fault. Fails fault (schema_of schema.now)) }
    {
        let schema = read_schema(alloc, schema)?;
        let engine = Engine::new(alloc, &schema, 1)?;
        Ok(Memory { engine })
    }

    // Takes the next bytes of the stream, and keeps the answers to the lines that they end.
    pub(crate) fn call(&mut self, lines: &[u8], out: &mut Out) -> (u8, usize)
        ensures { Carries self.old.engine out.old (bytes_of 0 lines.now) result.0 result.1 self.new.engine out.new }
    {
        match self.engine.feed(0, lines, out) {
            Ok(()) => (OK, lines.len()),
            Err(stop) => (MEMORY, stop.taken),
        }
    }

    // Takes the end of the stream, and keeps the answer to a line that it ends.
    pub(crate) fn end(&mut self, out: &mut Out) -> u8
        ensures { (taken : ℕ) × Carries self.old.engine out.old (end 0 ∷ []) result taken self.new.engine out.new }
    {
        match self.engine.finish(0, out) {
            Ok(()) => OK,
            Err(_) => MEMORY,
        }
    }
}
