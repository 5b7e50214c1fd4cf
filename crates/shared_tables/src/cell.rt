//! A table with the journal of its writes.

ghost use Rattle.std.specs.Prelude.{◌≡◌, ◌+◌, ◌<◌, ◌≤◌, ◌↔◌, ◌∷◌, ◌++◌, [], false, length, vec_len, vec_capacity, OnErr, OnOk, IfOk, IfSome, IsTrue};
ghost use Rattle.table_changes.specs.Change.{is_change};
ghost use Rattle.table_reply.specs.Ready.{IsBehind};
ghost use Rattle.shared_tables.specs.Journal.{IsLegal, own};
ghost use Rattle.shared_tables.specs.Call.{PassTold, TrackTold, fault_of, fault_in};

use crate::canonical::Canonical;
use crate::entry::Entry;
use crate::fault::CallFault;
use crate::line::{KEPT, first_bytes};
use crate::look::{KeptLook, put_look};
use crate::pass::{Pass, Track};
use crate::same::is_same_table;
use crate::stored::{Asked, Line};
use crate::tally::Tally;
use crate::writes::Writes;
use std::alloc::{AllocError, Global};
use std::marker::Model;
use std::sync::Arc;
use table_cmd::Command;
use table_reply::{Ready, Told};
use table_schema::TableSpec;
use table_step::{Outcome, Table, is_change, refuse_memory};

/// A table, its declaration, the number of sessions, and the journal of the accepted writes. The table is what the
/// journal's commands make of an empty one, and each of them was accepted with the answer that the journal has. The looks
/// are the last ones of the sessions: each shows how the answer after its number of entries begins.
#[derive(Drop)]
pub struct TableCell {
    pub(crate) spec: TableSpec,
    pub(crate) table: Table,
    pub(crate) journal: Vec<Entry>,
    pub(crate) tallies: Vec<Tally>,
    pub(crate) looks: Vec<KeptLook>,
    /// Room for the next answer that is long. The next line is printed in it, too.
    pub(crate) room: Vec<u8>,
}

impl Model for TableCell {
    ghost use Rattle.std.specs.Prelude.{length};
    ghost use Rattle.shared_tables.specs.Call.{CellData};
    ghost use Rattle.shared_tables.specs.Kept.{AreKept, IsKept};

    ghost Value = { CellData };

    ghost view = { λ c. record { shape = c.spec; workers = length c.tallies.items; journal = c.journal.items } };

    ghost invariant = { λ c. IsKept c.spec c.table c.journal.items c.tallies.items × AreKept c.spec c.journal.items (length c.tallies.items) c.looks.items };
}

// A command that may become a write: once for the journal, and once for the pass.
#[derive(Drop)]
struct Twins {
    journal: Arc<Canonical>,
    pass: Arc<Canonical>,
}

// Makes room for one more write in a journal and in what a session knows of it, and for its answer.
fn prepare(
    journal: &mut Vec<Entry>,
    room: &mut Vec<u8>,
    writes: &mut Writes,
    command: Command,
) -> Option<Twins>
    ensures command { IfSome result (λ twins. twins.journal.value ≡ command) }
    ensures twin { IfSome result (λ twins. twins.pass.value ≡ command) }
    ensures room { IfSome result (λ _. 256 ≤ vec_capacity room.new) }
    ensures journal { journal.new.items ≡ journal.old.items }
    ensures writes { writes.new.items ≡ writes.old.items }
    ensures entry { IfSome result (λ _. vec_len journal.new < vec_capacity journal.new) }
    ensures write { IfSome result (λ _. 0 < writes.new.rows) }
    ensures answer { IfSome result (λ _. 256 ≤ writes.new.bytes) }
{
    let alloc = *room.allocator();
    let canonical = Canonical::new(command, room).ok()?;
    room.clear();
    if journal.reserve(1).is_err() || writes.reserve().is_err() || room.reserve(KEPT).is_err() {
        drop(canonical);
        return None;
    }
    let journal = Arc::new(alloc, canonical).ok()?;
    let pass = Arc::try_clone(&journal).ok()?;
    Some(Twins { journal, pass })
}

// Puts an accepted write at the end of a journal and of what its session knows, for which there is room, and counts it.
fn accept(
    journal: &mut Vec<Entry>,
    tally: &mut Tally,
    writes: &mut Writes,
    session: u32,
    twins: Twins,
    room: &mut Vec<u8>,
    answer: &[u8],
)
    requires entry { vec_len journal.old < vec_capacity journal.old }
    requires count { tally.old.count ≤ vec_len journal.old }
    requires write { 0 < writes.old.rows }
    requires bytes { length answer.now ≤ writes.old.bytes }
    requires answer { length answer.now ≤ vec_capacity room.old }
    ensures entry { journal.new.items ≡ journal.old.items ++ record { session = session; serial = tally.old.count + 1; command = twins.journal.value; answer = answer.now } ∷ [] }
    ensures tally { tally.new ≡ record { count = tally.old.count + 1; last = vec_len journal.old + 1 } }
    ensures write { writes.new.items ≡ writes.old.items ++ record { number = vec_len journal.old + 1; command = twins.pass.value; answer = answer.now } ∷ [] }
{
    let Twins {
        journal: command,
        pass,
    } = twins;
    let serial = tally.count + 1;
    let number = journal.len() as u64 + 1;
    *tally = Tally {
        count: serial,
        last: number,
    };
    writes.push(number, pass, answer);
    journal.push_reserved(Entry {
        session,
        serial,
        command,
        answer: Line::new(answer, room),
    });
}

impl TableCell {
    /// An empty table of this declaration with an empty journal, for so many sessions. O(columns² + indices + sessions).
    pub fn new(alloc: Global, spec: &TableSpec, workers: u32) -> Result<TableCell, AllocError>
        ensures { IfOk result (λ cell. cell ≡ record { shape = spec.now; workers = workers; journal = [] }) }
    {
        let tallies = vec![in alloc; Tally { count: 0, last: 0 }; workers as usize]?;
        let looks = KeptLook::none(alloc, workers)?;
        let table = Table::new(alloc, spec)?;
        let spec = spec.copy()?;
        Ok(TableCell {
            spec,
            table,
            journal: Vec::new(alloc),
            tallies,
            looks,
            room: Vec::new(alloc),
        })
    }

    /// Whether it is the table of this declaration, for so many sessions. O(columns + indices).
    pub(crate) fn is_of(&self, spec: &TableSpec, workers: u32) -> bool
        ensures same { IsTrue result ↔ ((self.now.shape ≡ spec.now) × (self.now.workers ≡ workers)) }
        ensures legal { IsLegal self.now.shape self.now.journal }
    {
        self.tallies.len() == workers as usize && is_same_table(&self.spec, spec)
    }

    /// Why a call with this pass is refused. O(1).
    pub(crate) fn fault(&self, pass: &Pass) -> Option<CallFault>
        ensures { result ≡ fault_of self.now pass.now }
    {
        let Some(tally) = self.tallies.get(pass.session as usize) else {
            return Some(CallFault::Stranger);
        };
        if pass.tracks.len() != self.spec.tables() {
            return Some(CallFault::Stranger);
        }
        let track = &pass.tracks[self.spec.place()];
        let expected = track.last_write();
        if expected != tally.last {
            return Some(CallFault::Regressed {
                expected,
                found: tally.last,
            });
        }
        let found = self.journal.len() as u64;
        if found < track.seen {
            return Some(CallFault::Regressed {
                expected: track.seen,
                found,
            });
        }
        None
    }

    /// Carries out a command of the pass's session, and appends the line of its answer, or else the memory line. An accepted
    /// write goes to the end of the journal and to the pass's writes, with the line as its answer; any other command that
    /// is answered becomes the pass's last look. Where memory is refused nothing is changed and the memory line is
    /// appended; a pass that does not fit changes and appends nothing.
    ///
    /// Apart from what the command costs, O(length of the command).
    pub fn call<'o>(
        &mut self,
        pass: &mut Pass,
        command: Command,
        out: Ready<'o>,
    ) -> Told<'o, Result<(), CallFault>>
        ensures fault { fault_in result.what ≡ fault_of self.old pass.old }
        ensures refused { OnErr result.what ((self.new ≡ self.old) × (pass.new ≡ pass.old) × (result.out.now ≡ out.entry.out.now)) }
        ensures answered { OnOk result.what (PassTold self.old pass.old command out.entry.out.now.bytes result.out.now.bytes self.new pass.new) }
        ensures legal { IsLegal self.old.shape self.old.journal }
        ensures behind { IsBehind out.entry result }
    {
        if let Some(fault) = self.fault(pass) {
            drop(command);
            return out.give_back(Err(fault));
        }
        let session = pass.session;
        let track = &mut pass.tracks[self.spec.place()];
        self.answer(session, track, command, out).with(Ok(()))
    }

    // The same for a session of this table, at what it knows of the table.
    fn answer<'o>(
        &mut self,
        session: u32,
        track: &mut Track,
        command: Command,
        out: Ready<'o>,
    ) -> Told<'o, Outcome>
        requires { session < self.old.workers }
        ensures answered { TrackTold self.old session track.old command out.entry.out.now.bytes result.out.now.bytes self.new track.new }
        ensures behind { IsBehind out.entry result }
    {
        if track.make_room(*self.room.allocator()).is_err() {
            drop(command);
            return refuse_memory(out);
        }
        if is_change(&command) {
            self.change(session, track, command, out)
        } else {
            self.read(session, track, command, out)
        }
    }

    // The same of a command that changes no table. It is not copied, and room is made for no entry.
    fn read<'o>(
        &mut self,
        session: u32,
        track: &mut Track,
        command: Command,
        out: Ready<'o>,
    ) -> Told<'o, Outcome>
        requires session { session < self.old.workers }
        requires read { is_change command ≡ false }
        ensures answered { TrackTold self.old session track.old command out.entry.out.now.bytes result.out.now.bytes self.new track.new }
        ensures behind { IsBehind out.entry result }
    {
        let Some(next) = Arc::get_mut(&mut track.looks.next) else {
            drop(command);
            return refuse_memory(out);
        };
        let start = out.out.bytes().len();
        let told = self.table.read(&command, out);
        if let Outcome::Memory = told.what {
            drop(command);
            return told;
        }
        let number = self.journal.len() as u64;
        let line = first_bytes(told.out, start);
        put_look(next, number, Asked::Own(command), line);
        track.seen = number;
        track.looks.turn(&mut self.looks[session as usize]);
        told
    }

    // The same of a command that may change a table.
    fn change<'o>(
        &mut self,
        session: u32,
        track: &mut Track,
        command: Command,
        out: Ready<'o>,
    ) -> Told<'o, Outcome>
        requires { session < self.old.workers }
        ensures answered { TrackTold self.old session track.old command out.entry.out.now.bytes result.out.now.bytes self.new track.new }
        ensures behind { IsBehind out.entry result }
    {
        let Some(next) = Arc::get_mut(&mut track.looks.next) else {
            drop(command);
            return refuse_memory(out);
        };
        let Some(twins) = prepare(
            &mut self.journal,
            &mut self.room,
            &mut track.writes,
            command,
        ) else {
            return refuse_memory(out);
        };
        let start = out.out.bytes().len();
        let told = self.table.step(twins.journal.command(), out);
        let outcome = told.what;
        if let Outcome::Memory = outcome {
            return told;
        }
        let number = self.journal.len() as u64;
        let line = first_bytes(told.out, start);
        if let Outcome::Write = outcome {
            accept(
                &mut self.journal,
                &mut self.tallies[session as usize],
                &mut track.writes,
                session,
                twins,
                &mut self.room,
                line,
            );
            track.seen = number + 1;
            return told;
        }
        let Twins { journal: _, pass } = twins;
        put_look(next, number, Asked::Shared(pass), line);
        track.seen = number;
        track.looks.turn(&mut self.looks[session as usize]);
        told
    }

    /// How many entries a session has.
    pub(crate) fn count(&self, session: u32) -> u64
        ensures { result ≡ length (own session self.now.journal) }
    {
        match self.tallies.get(session as usize) {
            Some(tally) => tally.count,
            None => 0,
        }
    }

    /// The journal alone.
    pub(crate) fn into_journal(self) -> Vec<Entry>
        ensures { result.items ≡ self.journal }
    {
        let TableCell {
            spec: _,
            table: _,
            journal,
            tallies: _,
            looks: _,
            room: _,
        } = self;
        journal
    }
}
