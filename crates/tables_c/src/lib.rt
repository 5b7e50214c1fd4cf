//! Tables in a C program: lines in, answers out. `include/thwartcornel.h` says how each call is made.
#![tactic(auto)]

ghost use Rattle.std.specs.Prelude.{◌≡◌, None};
ghost use Rattle.schema_file.specs.Meaning.{schema_of};
ghost use Rattle.tables_c.specs.Calls.{Calls, Ends, Opens, OpensFolder, SyncsAll, Takes, led};

mod batch;
mod cells;
mod change;
mod get;
mod handing;
mod handle;
mod held;
mod kept;
mod keyed;
mod made;
mod memory;
mod order;
mod parts;
mod row_calls;
mod rows;
mod search;
mod status;
mod told;
mod walk;

pub use cells::{BOOLEAN, INTEGER, NULL, RowCell, TEXT};
pub use handle::Handle;
use held::Held;
pub use order::RowPart;
pub use rows::Rows;
use status::number_of;
pub use status::{
    BANNED, DEVICE, FULL, HANDLE, HURT, KEY, KIND, LIMIT, LOG, LOST, MEMORY, NAME, NONE, OK, OTHER,
    PLACE, ROOM, ROW, SEARCH, SHAPE, SPENT, STALE, TABLE, TAKEN, TOML,
};
use std::alloc::Global;
pub use told::RowHandle;

/// Opens the empty tables of a schema file.
#[unsafe(no_mangle)]
pub extern "C" fn tc_open(alloc: Global, tables: &mut Handle, schema: &[u8]) -> u8
    ensures { Opens (led tables.old) (schema_of schema.now) result (led tables.new) }
{
    if let Some(held) = tables.take(alloc) {
        tables.put(alloc, held);
        return HANDLE;
    }
    match Held::new(alloc, schema) {
        Ok(held) => match Box::new(alloc, held) {
            Ok(held) => {
                tables.put(alloc, held);
                OK
            }
            Err(_) => MEMORY,
        },
        Err(fault) => number_of(fault),
    }
}

/// Opens the tables of a schema file that a folder keeps.
#[unsafe(no_mangle)]
pub extern "C" fn tc_open_folder(
    alloc: Global,
    tables: &mut Handle,
    schema: &[u8],
    folder: &[u8],
    is_synced: bool,
) -> u8
    ensures { OpensFolder (led tables.old) (schema_of schema.now) is_synced result (led tables.new) }
{
    if let Some(held) = tables.take(alloc) {
        tables.put(alloc, held);
        return HANDLE;
    }
    match Held::in_folder(alloc, schema, folder, is_synced) {
        Ok(held) => match Box::new(alloc, held) {
            Ok(held) => {
                tables.put(alloc, held);
                OK
            }
            Err(_) => MEMORY,
        },
        Err(status) => status,
    }
}

/// Makes sure of all writes of tables that a folder keeps.
#[unsafe(no_mangle)]
pub extern "C" fn tc_sync(alloc: Global, tables: &mut Handle) -> u8
    ensures { SyncsAll (led tables.old) result (led tables.new) }
{
    let Some(mut held) = tables.take(alloc) else {
        return HANDLE;
    };
    let status = held.sync();
    tables.put(alloc, held);
    status
}

/// Takes the next bytes of a stream of lines, however it is cut, and keeps the answers to the lines that they end.
#[unsafe(no_mangle)]
pub extern "C" fn tc_call(alloc: Global, tables: &mut Handle, lines: &[u8], taken: &mut usize) -> u8
    ensures { Calls (led tables.old) lines.now result taken.new (led tables.new) }
{
    let Some(mut held) = tables.take(alloc) else {
        *taken = 0;
        return HANDLE;
    };
    let (status, count) = held.call(lines);
    tables.put(alloc, held);
    *taken = count;
    status
}

/// Takes the end of the stream, and keeps the answer to a line that it ends. What comes next begins a new stream.
#[unsafe(no_mangle)]
pub extern "C" fn tc_end(alloc: Global, tables: &mut Handle) -> u8
    ensures { Ends (led tables.old) result (led tables.new) }
{
    let Some(mut held) = tables.take(alloc) else {
        return HANDLE;
    };
    let status = held.end();
    tables.put(alloc, held);
    status
}

/// Moves the answers that wait to the front of the room, where they fit, and tells how long they are.
#[unsafe(no_mangle)]
pub extern "C" fn tc_take(
    alloc: Global,
    tables: &mut Handle,
    room: &mut [u8],
    length: &mut usize,
) -> u8
    ensures { Takes (led tables.old) room.old result length.new room.new (led tables.new) }
{
    let Some(mut held) = tables.take(alloc) else {
        *length = 0;
        return HANDLE;
    };
    let (status, count) = held.take(room);
    tables.put(alloc, held);
    *length = count;
    status
}

/// Ends the tables, and gives their memory back. A closed handle stays closed.
#[unsafe(no_mangle)]
pub extern "C" fn tc_close(alloc: Global, tables: &mut Handle)
    ensures { led tables.new ≡ None }
{
    drop(tables.take(alloc));
}
