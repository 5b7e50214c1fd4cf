//! What a session knows of its calls.

ghost use Rattle.std.specs.Prelude.{◌≡◌, IfOk};
ghost use Rattle.std.specs.Option.{option_copied};
ghost use Rattle.shared_tables.specs.Journal.{last_number};
ghost use Rattle.shared_tables.specs.Pass.{fresh, fresh_pass};
ghost use Rattle.shared_tables.specs.Call.{is_known};
ghost use Rattle.shared_tables.specs.Looks.{look_of};

use crate::look::{Answered, Looks};
use crate::writes::Writes;
use std::alloc::{AllocError, Global};
use std::marker::Model;

/// What a session knows of one table.
#[derive(Drop)]
pub(crate) struct Track {
    pub(crate) writes: Writes,
    pub(crate) seen: u64,
    pub(crate) looks: Looks,
}

impl Model for Track {
    ghost use Rattle.shared_tables.specs.Pass.{TrackData};

    ghost Value = { TrackData };

    ghost view = { λ t. record { writes = t.writes.items; seen = t.seen; look = t.looks.last.value } };
}

impl Track {
    /// Nothing is known yet.
    pub(crate) fn new(alloc: Global) -> Result<Track, AllocError>
        ensures { IfOk result (λ track. track ≡ fresh) }
    {
        Ok(Track {
            writes: Writes::new(alloc),
            seen: 0,
            looks: Looks::new(alloc)?,
        })
    }

    /// Has room for the next look that is the pass's alone. O(1).
    pub(crate) fn make_room(&mut self, alloc: Global) -> Result<(), AllocError>
        ensures { self.new ≡ self.old }
    {
        self.looks.make_room(alloc)
    }

    /// The last look at the table.
    pub(crate) fn look(&self) -> Option<&Answered>
        ensures { option_copied result ≡ self.now.look }
    {
        (*self.looks.last).as_ref()
    }

    /// The number of the last own write, or 0.
    pub(crate) fn last_write(&self) -> u64
        ensures { result ≡ last_number self.now.writes }
    {
        self.writes.last_number()
    }
}

/// What one session knows of each table: its accepted writes, how many writes it saw there, and its last look. It can't be
/// copied.
#[derive(Drop)]
pub struct Pass {
    pub(crate) session: u32,
    pub(crate) tracks: Vec<Track>,
}

impl Model for Pass {
    ghost use Rattle.shared_tables.specs.Pass.{PassData};

    ghost Value = { PassData };

    ghost view = { λ p. record { session = p.session; tracks = p.tracks.items } };
}

impl Pass {
    /// A pass of a session that was answered nothing yet in so many tables.
    pub(crate) fn new(alloc: Global, session: u32, tables: usize) -> Result<Pass, AllocError>
        ensures { IfOk result (λ pass. pass ≡ fresh_pass tables session) }
    {
        let mut tracks = Vec::with_capacity(alloc, tables)?;
        for _ in 0..tables {
            tracks.push(Track::new(alloc)?)?;
        }
        Ok(Pass { session, tracks })
    }

    /// The last look at the table at this place, where the pass is of so many tables and has one. O(1).
    pub(crate) fn look(&self, place: usize) -> Option<&Answered>
        ensures { option_copied result ≡ look_of place self.now }
    {
        self.tracks.get(place)?.look()
    }

    /// Whether the pass is of so many tables, and one of so many sessions.
    pub(crate) fn is_known(&self, tables: usize, workers: usize) -> bool
        ensures { result ≡ is_known tables workers self.now }
    {
        self.tracks.len() == tables && (self.session as usize) < workers
    }
}
