//! The tables that a handle leads to.

ghost use Rattle.std.specs.Prelude.{MatchResult};
ghost use Rattle.schema_file.specs.Meaning.{schema_of};
ghost use Rattle.table_schema.specs.Meaning.{Fails};

use crate::handing::hand_out;
use crate::kept::{Kept, sync_number};
use crate::memory::Memory;
use crate::status::{MEMORY, OK};
use std::alloc::Global;
use table_reply::Out;
use table_schema::SchemaFault;

/// Tables in memory, or those that a folder keeps.
#[derive(Drop)]
pub enum Side {
    Memory(Memory),
    Folder(Kept),
}

/// Tables with one stream of lines, and the answers that wait to be taken.
#[derive(Drop)]
pub struct Held {
    pub(crate) side: Side,
    pub(crate) out: Out,
}

impl Held {
    ghost use Rattle.tables_c.specs.Calls.{Carried, EndCarried, IsFresh, IsKeeping, Moves, RefusesFolder, SyncsHeld};

    // The empty tables of a schema file.
    pub(crate) fn new(alloc: Global, schema: &[u8]) -> Result<Held, SchemaFault>
        ensures { MatchResult result (λ held. IsFresh (schema_of schema.now) held) (λ fault. Fails fault (schema_of schema.now)) }
    {
        let memory = Memory::new(alloc, schema)?;
        match Out::new(alloc) {
            Ok(out) => Ok(Held {
                side: Side::Memory(memory),
                out,
            }),
            Err(_) => Err(SchemaFault::Memory),
        }
    }

    // The tables of a schema file that the folder at a path keeps.
    pub(crate) fn in_folder(
        alloc: Global,
        schema: &[u8],
        path: &[u8],
        is_synced: bool,
    ) -> Result<Held, u8>
        ensures { MatchResult result (λ held. IsKeeping (schema_of schema.now) is_synced held) (λ status. RefusesFolder (schema_of schema.now) status) }
    {
        let kept = match Kept::new(alloc, schema, path, is_synced) {
            Ok(kept) => kept,
            Err(status) => return Err(status),
        };
        match Out::new(alloc) {
            Ok(out) => Ok(Held {
                side: Side::Folder(kept),
                out,
            }),
            Err(_) => Err(MEMORY),
        }
    }

    // Takes the next bytes of the stream, and keeps the answers to the lines that they end.
    pub(crate) fn call(&mut self, lines: &[u8]) -> (u8, usize)
        ensures { Carried self.old lines.now result.0 result.1 self.new }
    {
        match &mut self.side {
            Side::Memory(memory) => memory.call(lines, &mut self.out),
            Side::Folder(kept) => kept.call(lines, &mut self.out),
        }
    }

    // Takes the end of the stream, and keeps the answer to a line that it ends.
    pub(crate) fn end(&mut self) -> u8
        ensures { EndCarried self.old result self.new }
    {
        match &mut self.side {
            Side::Memory(memory) => memory.end(&mut self.out),
            Side::Folder(kept) => kept.end(&mut self.out),
        }
    }

    // Moves the answers that wait to the front of the room, if they fit, and tells how long they are. Those of a folder wait until its logs are settled.
    pub(crate) fn take(&mut self, room: &mut [u8]) -> (u8, usize)
        ensures { Moves self.old room.old result.0 result.1 room.new self.new }
    {
        match &mut self.side {
            Side::Memory(_) => hand_out(&mut self.out, room),
            Side::Folder(kept) => kept.hand_out(&mut self.out, room),
        }
    }

    // Makes sure of what was written.
    pub(crate) fn sync(&mut self) -> u8
        ensures { SyncsHeld self.old result self.new }
    {
        match &mut self.side {
            Side::Memory(_) => OK,
            Side::Folder(kept) => sync_number(kept.sync()),
        }
    }
}
