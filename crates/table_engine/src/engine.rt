//! The tables of a schema behind several sessions.

ghost use Rattle.std.specs.Prelude.{◌≡◌, ◌≤◌, ◌<◌, ◌++◌, [], ◌∷◌, List, ℕ, IsOk, OnErr, IfOk, IfErr, Some, length, map, replicate, slice_get};
ghost use Rattle.table_reply.specs.Buffer.{joined, Keeps};
ghost use Rattle.table_step.specs.Step.{new_table};
ghost use Rattle.table_engine.specs.Events.{taken_of};
ghost use Rattle.table_engine.specs.Lines.{short};
ghost use Rattle.table_engine.specs.Run.{Run, Waits, bytes_of, end};

use crate::carry::Tables;
use crate::cutter::LineCutter;
use crate::event::Stop;
use crate::session::{take_end, take_piece};
use std::alloc::{AllocError, Global};
use std::marker::Model;
use table_reply::{Out, READY_ROOM};
use table_schema::Schema;

/// The tables of a schema, and a line cutter for each session.
///
/// Its memory for the sessions, `MAX_LINE` bytes each, is taken when it is made. A line's cost does not grow with the
/// lines before it.
#[derive(Drop)]
pub struct Engine {
    pub(crate) tables: Tables,
    pub(crate) cutters: Vec<LineCutter>,
}

impl Model for Engine {
    ghost use Rattle.table_engine.specs.Run.{Machine};

    ghost Value = { Machine };

    ghost use Rattle.table_engine.specs.State.{machine};

    ghost view = { λ e. machine e.tables e.cutters.items };
}

impl Engine {
    /// An engine with the empty tables of a schema, for so many sessions, none of which has begun a line.
    pub fn new(alloc: Global, schema: &Schema, sessions: usize) -> Result<Engine, AllocError>
        requires { (1 ≤ sessions) × (sessions ≤ 16) }
        ensures tables { IfOk result (λ e. e.tables ≡ map new_table schema.now) }
        ensures unfinished { IfOk result (λ e. e.unfinished ≡ replicate sessions (short [])) }
    {
        let tables = Tables::new(alloc, schema)?;
        let cutters = new_cutters(alloc, sessions)?;
        Ok(Engine { tables, cutters })
    }

    /// Takes the next piece of a session's stream, and appends the answers to the lines that it completes.
    /// At an `Err` as many bytes were taken as it says, and all before them stands. O(n) for n bytes, apart from what
    /// the commands cost.
    pub fn feed(&mut self, session: usize, piece: &[u8], out: &mut Out) -> Result<(), Stop>
        requires { session < length self.old.unfinished }
        ensures run { (told : List (List ℕ)) × Run self.old (taken_of result (bytes_of session piece.now)) told self.new
            × (out.new.bytes ≡ out.old.bytes ++ joined told) }
        ensures stopped { IfErr result (λ stop. (stop.event ≡ 0) × (stop.taken < length piece.now)) }
        ensures waits { IfErr result (λ stop. Waits self.new (λ _. out.new.room) (slice_get (bytes_of session piece.now) stop.taken)) }
        ensures progress { READY_ROOM ≤ out.old.room → IfErr result (λ stop. 0 < stop.taken) }
        ensures kept { Keeps out.old out.new }
        ensures sessions { length self.new.unfinished ≡ length self.old.unfinished }
    {
        take_piece(&mut self.tables, &mut self.cutters[session], piece, out)
    }

    /// Takes the end of a session's stream, and appends the answer to a line that it completes.
    /// At an `Err` nothing was done.
    pub fn finish(&mut self, session: usize, out: &mut Out) -> Result<(), Stop>
        requires { session < length self.old.unfinished }
        ensures run { (told : List (List ℕ)) × Run self.old (taken_of result (end session ∷ [])) told self.new
            × (out.new.bytes ≡ out.old.bytes ++ joined told) }
        ensures stopped { IfErr result (λ stop. (stop.event ≡ 0) × (stop.taken ≡ 0)) }
        ensures waits { IfErr result (λ stop. Waits self.new (λ _. out.new.room) (Some (end session))) }
        ensures unchanged { OnErr result ((self.new ≡ self.old) × (out.new ≡ out.old)) }
        ensures ready { READY_ROOM ≤ out.old.room → IsOk result }
        ensures kept { Keeps out.old out.new }
        ensures sessions { length self.new.unfinished ≡ length self.old.unfinished }
    {
        let cutter = &mut self.cutters[session];
        if let Err(_) = take_end(&mut self.tables, cutter, out) {
            return Err(Stop { event: 0, taken: 0 });
        }
        Ok(())
    }
}

// A cutter at the start of a stream, for each session.
fn new_cutters(alloc: Global, sessions: usize) -> Result<Vec<LineCutter>, AllocError>
    ensures { IfOk result (λ cutters. map (λ c. c.unfinished) cutters.items ≡ replicate sessions (short [])) }
{
    let mut cutters = Vec::with_capacity(alloc, sessions)?;
    for _ in 0..sessions {
        cutters.push(LineCutter::new())?;
    }
    Ok(cutters)
}
