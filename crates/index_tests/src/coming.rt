//! Indices that are added to a set with records, read, and dropped again.
ghost use Rattle.index_tests.specs.Tens.{IsLive};

use crate::live::{Live, Refusal, Walk};
use container_model::{Kind, Spec};
use std::alloc::Global;

// What a walk through 30, 11 and 20 meets, by their tens and in the order in which they came.
const BY_TENS: Walk = [Some(1), Some(2), Some(0)];

const BY_AGE: Walk = [Some(0), Some(1), Some(2)];

const SEQUENCE: Spec = Spec {
    kind: Kind::Sequenced,
    unique: false,
};

const EACH: [Spec; 8] = [
    SEQUENCE,
    Spec {
        kind: Kind::Random,
        unique: false,
    },
    Spec {
        kind: Kind::Ordered,
        unique: false,
    },
    Spec {
        kind: Kind::Ordered,
        unique: true,
    },
    Spec {
        kind: Kind::Ranked,
        unique: false,
    },
    Spec {
        kind: Kind::Ranked,
        unique: true,
    },
    Spec {
        kind: Kind::Hashed,
        unique: false,
    },
    Spec {
        kind: Kind::Hashed,
        unique: true,
    },
];

fn walk_of(kind: Kind) -> Option<Walk> {
    match kind {
        Kind::Sequenced | Kind::Random => Some(BY_AGE),
        Kind::Ordered | Kind::Ranked => Some(BY_TENS),
        Kind::Hashed => None,
    }
}

// The age of the node of 20, where the kind has a key to find it by.
fn found_in(kind: Kind) -> Option<u64> {
    match kind {
        Kind::Sequenced | Kind::Random => None,
        Kind::Ordered | Kind::Ranked | Kind::Hashed => Some(2),
    }
}

// Whether the index is added, at once, or after memory was refused and all was as before. None where it is refused again.
fn is_added(live: &mut Live, spec: Spec) -> Option<bool>
    requires { IsLive live.old.set live.old.nodes }
    ensures { IsLive live.new.set live.new.nodes }
{
    let before = [live.walk(0), live.walk(1)];
    match live.add(spec)? {
        Ok(()) => Some(true),
        Err(Refusal::Memory) => {
            let same = [live.walk(0), live.walk(1)] == before;
            match live.add(spec)? {
                Ok(()) => Some(same),
                Err(Refusal::Memory) => None,
                Err(_) => Some(false),
            }
        }
        Err(_) => Some(false),
    }
}

// Whether one index more is refused, for want of a column.
fn is_full(live: &mut Live) -> Option<bool>
    requires { IsLive live.old.set live.old.nodes }
    ensures { IsLive live.new.set live.new.nodes }
{
    let told = live.check(SEQUENCE)?;
    let refused = live.add(SEQUENCE)?;
    Some(matches!(
        (told, refused),
        (Err(Refusal::Columns), Err(Refusal::Columns))
    ))
}

// Whether an index is added beside another one, stays when that goes, and leaves its column to one more.
fn comes_and_stays(alloc: Global, spec: Spec) -> Option<bool> {
    let mut live = Live::new(alloc, [30, 11, 20], 2)?;
    let comes = is_added(&mut live, spec)?;
    let is_there = live.walk(1) == walk_of(spec.kind) && live.find(1, 25) == found_in(spec.kind);
    let is_beside = live.walk(0) == Some(BY_TENS) && live.find(0, 25) == Some(2);
    let is_full = is_full(&mut live)?;
    live.drop_index(0)?;
    let stays = live.walk(0) == walk_of(spec.kind) && live.find(0, 25) == found_in(spec.kind);
    let comes_again = is_added(&mut live, SEQUENCE)? && live.walk(1) == Some(BY_AGE);
    live.drop_index(0)?;
    let is_last = live.walk(0) == Some(BY_AGE) && live.walk(1).is_none();
    Some(comes && is_there && is_beside && is_full && stays && comes_again && is_last)
}

/// Whether an index of each kind does so, unique and not.
pub(crate) fn each_comes_and_stays(alloc: Global) -> Option<bool> {
    for spec in EACH {
        if !comes_and_stays(alloc, spec)? {
            return Some(false);
        }
    }
    Some(true)
}

// Whether the refusal names the first and the third node. None where memory was refused before they were met.
fn names_the_pair(refused: &Result<(), Refusal>) -> Option<bool> {
    match refused {
        Err(Refusal::Clash { first, second }) => Some(*first == 0 && *second == 2),
        Err(Refusal::Memory) => None,
        _ => Some(false),
    }
}

// Whether 11 and 12 keep a unique index of their tens out, are named, and stand in one that is not unique.
fn clashes(alloc: Global, kind: Kind) -> Option<bool> {
    let mut live = Live::new(alloc, [12, 30, 11], 2)?;
    let unique = Spec { kind, unique: true };
    let is_told = names_the_pair(&live.check(unique)?)?;
    let is_refused = names_the_pair(&live.add(unique)?)?;
    let is_as_before = live.walk(0) == Some([Some(0), Some(2), Some(1)]) && live.walk(1).is_none();
    let spec = Spec {
        kind,
        unique: false,
    };
    let comes = is_added(&mut live, spec)? && live.find(1, 10) == Some(0);
    Some(is_told && is_refused && is_as_before && comes)
}

/// The same of each kind of index that may be unique. None where memory is refused before the clash is seen.
pub(crate) fn each_clashes(alloc: Global) -> Option<bool> {
    let ordered = clashes(alloc, Kind::Ordered)?;
    let ranked = clashes(alloc, Kind::Ranked)?;
    let hashed = clashes(alloc, Kind::Hashed)?;
    Some(ordered && ranked && hashed)
}
