//! A journal beside what the passes know of it.

ghost use Rattle.std.specs.Prelude.{◌≡◌, ◌↔◌, ◌≤◌, IfOk, IsTrue, []};
ghost use Rattle.shared_tables.specs.Journal.{own};
ghost use Rattle.shared_tables.specs.Holders.{IsHolder};
ghost use Rattle.shared_tables.specs.Gathered.{FirstFailure, SessionAgrees, passes_of};
ghost use Rattle.shared_tables.specs.Looks.{WritesAgree};

use crate::cell::TableCell;
use crate::holder::Holder;
use crate::looks::lesser;
use crate::pass::Pass;
use crate::writes::Writes;
use std::alloc::{AllocError, Global};
use table_reply::Out;

// The pass of a session among these.
fn holder_of(passes: &[Pass], session: u32) -> Holder<'_>
    ensures { IsHolder result (passes_of session passes.now) }
{
    let mut found = Holder::Nobody;
    for pass in passes {
        if pass.session == session {
            if let Holder::Nobody = found {
                found = Holder::One(pass);
            } else {
                return Holder::Several;
            }
        }
    }
    found
}

// The least session beyond the first ones that has a pass.
fn first_beyond(passes: &[Pass], workers: usize) -> Option<u32>
    ensures { FirstFailure (λ session. workers ≤ session → passes_of session passes.now ≡ []) result }
{
    let mut least: Option<u32> = None;
    for pass in passes {
        if (pass.session as usize) < workers {
            continue;
        }
        match least {
            Some(session) if session <= pass.session => {}
            _ => least = Some(pass.session),
        }
    }
    least
}

impl TableCell {
    // Whether the session's entries are these, in order.
    fn has_writes(&self, session: u32, writes: &Writes) -> bool
        ensures { IsTrue result ↔ (own session self.now.journal ≡ writes.now.items) }
    {
        let mut next = 0;
        for (before, entry) in self.journal.iter().enumerate() {
            if entry.session == session {
                if next >= writes.len() || !writes.is_entry(next, before, entry) {
                    return false;
                }
                next += 1;
            }
        }
        next == writes.len()
    }

    // Whether the journal is what a session's pass tells of its writes.
    fn session_writes_agree(&self, passes: &[Pass], session: u32) -> bool
        ensures { IsTrue result ↔ WritesAgree passes.now self.now session }
    {
        match holder_of(passes, session) {
            Holder::Nobody => self.count(session) == 0,
            Holder::One(pass) => {
                pass.is_known(self.spec.tables(), self.tallies.len())
                    && self.has_writes(session, &pass.tracks[self.spec.place()].writes)
            }
            Holder::Several => false,
        }
    }

    // The least session of whose writes the journal and the pass do not agree.
    fn first_unlike(&self, passes: &[Pass]) -> Option<u32>
        ensures { FirstFailure (WritesAgree passes.now self.now) result }
    {
        let workers = self.tallies.len();
        for session in 0..workers as u32 {
            if !self.session_writes_agree(passes, session) {
                return Some(session);
            }
        }
        first_beyond(passes, workers)
    }

    /// The least session with whose pass the journal does not agree. O(sessions · (passes + entries)), and for each look that is
    /// not the table's a replay of the entries before it.
    pub(crate) fn first_failure(
        &self,
        alloc: Global,
        passes: &[Pass],
        out: &mut Out,
    ) -> Result<Option<u32>, AllocError>
        ensures { IfOk result (λ first. FirstFailure (SessionAgrees passes.now self.now) first) }
    {
        let unlike = self.first_unlike(passes);
        let unfit = self.first_unfit(alloc, passes, out)?;
        Ok(lesser(unlike, unfit))
    }
}
