//! The tables of a folder.

ghost use Rattle.std.specs.Prelude.{◌≡◌, MatchResult};
ghost use Rattle.schema_file.specs.Meaning.{schema_of};
ghost use Rattle.tables_c.specs.Calls.{open_number, stop_number, sync_number, take_number};

use crate::handing::hand_out;
use crate::status::{DEVICE, HURT, LOG, MEMORY, OK, OTHER, TAKEN, number_of};
use kept_tables::{KeptTables, LogDisk, OpenFault, Stop, StopWhy, open_all};
use schema_file::read_schema;
use std::alloc::Global;
use system_files::{SystemFolder, TakeFault};
use table_log::Over;
use table_reply::Out;

/// Tables with one stream of lines, whose logs are kept in a folder.
#[derive(Drop)]
pub struct Kept {
    tables: KeptTables<LogDisk>,
    folder: SystemFolder,
    is_synced: bool,
}

// The status of a folder that is not taken.
fn take_number(fault: TakeFault) -> u8
    ensures { result ≡ take_number fault }
{
    match fault {
        TakeFault::Memory => MEMORY,
        TakeFault::Folder | TakeFault::Lock => DEVICE,
        TakeFault::Taken => TAKEN,
    }
}

// The status of tables that are not opened.
fn open_number(fault: OpenFault) -> u8
    ensures { result ≡ open_number fault }
{
    match fault {
        OpenFault::Memory => MEMORY,
        OpenFault::File => DEVICE,
        OpenFault::Declared => OTHER,
        OpenFault::Hurt => HURT,
    }
}

// The status of lines that are not taken.
fn stop_number(why: StopWhy) -> u8
    ensures { result ≡ stop_number why }
{
    match why {
        StopWhy::Memory => MEMORY,
        StopWhy::Over => LOG,
    }
}

// The status of a sync.
pub(crate) fn sync_number(synced: Result<(), Over>) -> u8
    ensures { result ≡ sync_number synced }
{
    match synced {
        Ok(()) => OK,
        Err(_) => LOG,
    }
}

impl Kept {
    ghost use Rattle.tables_c.specs.Calls.{AreKept, KeptCalls, KeptEnds, KeptMoves, KeptSyncs, RefusesFolder, Settles};

    // The tables of a schema file in the folder at a path.
    pub(crate) fn new(
        alloc: Global,
        schema: &[u8],
        path: &[u8],
        is_synced: bool,
    ) -> Result<Kept, u8>
        ensures { MatchResult result (λ kept. AreKept (schema_of schema.now) is_synced kept) (λ status. RefusesFolder (schema_of schema.now) status) }
    {
        let schema = match read_schema(alloc, schema) {
            Ok(schema) => schema,
            Err(fault) => return Err(number_of(fault)),
        };
        let Ok(path) = str::from_utf8(path) else {
            return Err(DEVICE);
        };
        let folder = match SystemFolder::take(alloc, path) {
            Ok(folder) => folder,
            Err(fault) => return Err(take_number(fault)),
        };
        let tables = match open_all(alloc, &folder, &schema) {
            Ok(tables) => tables,
            Err(fault) => return Err(open_number(fault)),
        };
        match KeptTables::new(alloc, tables) {
            Ok(tables) => Ok(Kept {
                tables,
                folder,
                is_synced,
            }),
            Err(_) => Err(MEMORY),
        }
    }

    // Takes the next bytes of the stream, and keeps the answers to the lines that they end.
    pub(crate) fn call(&mut self, lines: &[u8], out: &mut Out) -> (u8, usize)
        ensures { KeptCalls self.old out.old lines.now result.0 result.1 self.new out.new }
    {
        match self.tables.feed(lines, out) {
            Ok(()) => (OK, lines.len()),
            Err(Stop { taken, why }) => (stop_number(why), taken),
        }
    }

    // Takes the end of the stream, and keeps the answer to a line that it ends.
    pub(crate) fn end(&mut self, out: &mut Out) -> u8
        ensures { KeptEnds self.old out.old result self.new out.new }
    {
        match self.tables.finish(out) {
            Ok(()) => OK,
            Err(why) => stop_number(why),
        }
    }

    // Makes sure of what was written.
    pub(crate) fn sync(&mut self) -> Result<(), Over>
        ensures { KeptSyncs self.old result self.new }
    {
        self.tables.sync()
    }

    // Makes sure of what was written, where that is asked for before answers are told.
    fn settle(&mut self) -> Result<(), Over>
        ensures { Settles self.old result self.new }
    {
        if self.is_synced { self.sync() } else { Ok(()) }
    }

    // Moves the answers that wait to the front of the room, once the logs are settled that they rest on.
    pub(crate) fn hand_out(&mut self, out: &mut Out, room: &mut [u8]) -> (u8, usize)
        ensures { KeptMoves self.old out.old room.old result.0 result.1 room.new self.new out.new }
    {
        match self.settle() {
            Ok(()) => hand_out(out, room),
            Err(_) => (LOG, 0),
        }
    }
}
