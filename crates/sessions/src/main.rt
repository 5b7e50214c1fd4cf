//! Sessions that end when nothing was heard of them for a while: a hashed index by number, and one in the order of their ends.
#![tactic(auto)]

use indexed::{
    Field, Fields, Hashed, Index, Indexed, RANKED, Ranked, Rising, Search, Tag, UNIQUE_HASHED,
    unsigned,
};
use std::io;

#[derive(Clone, Copy, Debug)]
struct Session {
    number: u64,
    end: u64,
}

const BY_NUMBER: Tag<Hashed> = Tag(0, Hashed);

const BY_END: Tag<Ranked> = Tag(1, Ranked);

const INDICES: &[Index] = &[
    Index(UNIQUE_HASHED, &[Rising(0)]),
    Index(RANKED, &[Rising(1)]),
];

impl Fields for Session {
    ghost use Rattle.std.specs.Prelude.{◌∷◌, []};
    ghost use Rattle.indexed.specs.Declaration.{ranked, unique_hashed, unsigned};

    ghost row_of = { λ session. unsigned session.number ∷ unsigned session.end ∷ [] };

    ghost indices = { unique_hashed ∷ ranked ∷ [] };

    fn field(&self, column: usize) -> Option<Field<'_>> {
        match column {
            0 => Some(unsigned(self.number)),
            1 => Some(unsigned(self.end)),
            _ => None,
        }
    }
}

fn hear(live: &mut Indexed<Session>, number: u64, end: u64) -> bool {
    match live.index(BY_NUMBER).find(&Search::unsigned(number)) {
        Some(heard) => live.modify_with(heard, |session| session.end = end).is_ok(),
        None => live.insert(Session { number, end }).is_ok(),
    }
}

fn hear_all(rt: &HostRuntime, live: &mut Indexed<Session>) -> io::Result<()> {
    for (number, end) in [(1, 40), (2, 30), (3, 35), (2, 50)] {
        println!(rt; "heard of {number}: {}", hear(live, number, end))?;
    }
    Ok(())
}

fn end_first(rt: &HostRuntime, live: &mut Indexed<Session>) -> io::Result<()> {
    if let Some((handle, session)) = live.index(BY_END).iter().next() {
        println!(rt; "session {} ended at {}", session.number, session.end)?;
        println!(rt; "taken out: {}", live.erase(handle).is_ok())?;
    }
    Ok(())
}

fn list(rt: &HostRuntime, live: &Indexed<Session>) -> io::Result<()> {
    for (_, session) in live.index(BY_END).iter() {
        println!(rt; "session {} until {}", session.number, session.end)?;
    }
    Ok(())
}

fn main(rt: HostRuntime) -> io::Result<()> {
    let mut live = Indexed::new(rt.alloc(), INDICES, 1000)?;
    hear_all(&rt, &mut live)?;
    for _ in 0..live.index(BY_END).lower_rank(&Search::unsigned(45)) {
        end_first(&rt, &mut live)?;
    }
    list(&rt, &live)
}
