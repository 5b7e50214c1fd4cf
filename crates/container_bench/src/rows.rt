//! The rows of the table, by the container that they are timed on.

use crate::calls::Call;
use crate::keys::Key;
use crate::measured::Span;

/// A row: its name, its call, and how often that is made.
pub(crate) type Row = (&'static str, Call, Span);

pub(crate) const ONE: [Row; 1] = [("insert, 1 index", Call::Insert, Span::All)];

pub(crate) const THREE: [Row; 1] = [("insert, 3 indices", Call::Insert, Span::All)];

/// Of a container of seven indices that is empty, and of its look-ups and walks.
pub(crate) const SEVEN: [Row; 27] = [
    ("insert, 7 indices", Call::Insert, Span::All),
    (
        "find, ordered and unique",
        Call::Find(3, Key::Id),
        Span::All,
    ),
    (
        "find, ordered by two parts",
        Call::Find(6, Key::OwnerAndPrice),
        Span::All,
    ),
    ("find, ranked", Call::Find(2, Key::Price), Span::All),
    ("find, hashed and unique", Call::Find(5, Key::Id), Span::All),
    (
        "find, hashed, four records a key",
        Call::Find(4, Key::Owner),
        Span::All,
    ),
    (
        "count, ordered by two parts",
        Call::Count(6, Key::OwnerAndPrice),
        Span::All,
    ),
    ("count, ranked", Call::Count(2, Key::Price), Span::All),
    (
        "count, hashed, four records a key",
        Call::Count(4, Key::Owner),
        Span::All,
    ),
    (
        "lower, ordered and unique",
        Call::Lower(3, Key::Id),
        Span::All,
    ),
    (
        "upper, ordered and unique",
        Call::Upper(3, Key::Id),
        Span::All,
    ),
    ("lower, ranked", Call::Lower(2, Key::Price), Span::All),
    ("nth, random access", Call::Nth(1), Span::All),
    ("nth, ranked", Call::Nth(2), Span::All),
    ("list, a record, sequenced", Call::List(0), Span::All),
    ("list, a record, random access", Call::List(1), Span::All),
    (
        "list, a record, ordered and unique",
        Call::List(3),
        Span::All,
    ),
    (
        "list, a record, ordered by two parts",
        Call::List(6),
        Span::All,
    ),
    ("list, a record, ranked", Call::List(2), Span::All),
    (
        "list, a record, hashed and unique",
        Call::List(5),
        Span::All,
    ),
    ("list, a record, hashed", Call::List(4), Span::All),
    ("step, sequenced", Call::Walk(0), Span::All),
    ("step, random access", Call::Walk(1), Span::All),
    ("step, ordered and unique", Call::Walk(3), Span::All),
    ("step, ordered by two parts", Call::Walk(6), Span::All),
    ("step, ranked", Call::Walk(2), Span::All),
    (
        "step in a range, ordered and unique",
        Call::WalkRange(3),
        Span::FirstHalf,
    ),
];

/// Of a full container of seven indices: calls by handles in the order of the ids, and changes.
pub(crate) const HANDLED: [Row; 19] = [
    ("get", Call::Get, Span::All),
    ("place_of, random access", Call::Place(1), Span::All),
    ("rank, ranked", Call::Rank(2), Span::All),
    ("next, sequenced", Call::Next(0), Span::All),
    ("next, random access", Call::Next(1), Span::All),
    ("next, ordered and unique", Call::Next(3), Span::All),
    ("next, ranked", Call::Next(2), Span::All),
    ("previous, ordered and unique", Call::Previous(3), Span::All),
    (
        "nth and a move one place on, random access",
        Call::MoveOn(1),
        Span::All,
    ),
    (
        "move to the front, sequenced",
        Call::MoveToFront(0),
        Span::All,
    ),
    (
        "move to the front, random access",
        Call::MoveToFront(1),
        Span::First(20),
    ),
    (
        "reverse, a call, sequenced",
        Call::Reverse(0),
        Span::First(1),
    ),
    (
        "reverse, a call, random access",
        Call::Reverse(1),
        Span::First(1),
    ),
    ("sort, a record, sequenced", Call::Sort(0), Span::All),
    ("sort, a record, random access", Call::Sort(1), Span::All),
    (
        "replace by an equal record, 7 indices",
        Call::Replace,
        Span::All,
    ),
    ("modify of one key, 7 indices", Call::Reprice, Span::All),
    ("modify of all keys, 7 indices", Call::Rekey, Span::All),
    ("erase, 7 indices", Call::Erase, Span::First(100)),
];

/// Of a container of one index that is empty, by kind.
pub(crate) const ALONE: [(usize, [Row; 1]); 7] = [
    (0, [("insert alone, sequenced", Call::Insert, Span::All)]),
    (
        1,
        [("insert alone, random access", Call::Insert, Span::All)],
    ),
    (
        3,
        [("insert alone, ordered and unique", Call::Insert, Span::All)],
    ),
    (
        6,
        [(
            "insert alone, ordered by two parts",
            Call::Insert,
            Span::All,
        )],
    ),
    (2, [("insert alone, ranked", Call::Insert, Span::All)]),
    (
        5,
        [("insert alone, hashed and unique", Call::Insert, Span::All)],
    ),
    (4, [("insert alone, hashed", Call::Insert, Span::All)]),
];

// The place of the index by owner, where it stands beside one other.
const BY_OWNER: usize = 1;

/// Of a full row whose records are also hashed by owner, 32 of each.
pub(crate) const OF_TENS: [Row; 1] = [(
    "erase_key of 32 records, beside a row",
    Call::EraseOwner(BY_OWNER),
    Span::First(20),
)];

/// The same where all are of one owner.
pub(crate) const OF_ALL: [Row; 4] = [
    (
        "find, hashed, all of one key",
        Call::FindOwner(BY_OWNER),
        Span::First(100),
    ),
    (
        "erase of the first record of a row",
        Call::EraseFirst(0),
        Span::First(20),
    ),
    (
        "the same find, the oldest erased",
        Call::FindOwner(BY_OWNER),
        Span::First(100),
    ),
    (
        "erase_key of all, a call, beside a row",
        Call::EraseOwner(BY_OWNER),
        Span::First(1),
    ),
];

/// Of a full container in the order of owners, of which each has 1,000 records.
pub(crate) const OF_GROUPS: [Row; 1] = [(
    "step in a group, ordered",
    Call::WalkGroups(BY_OWNER),
    Span::All,
)];
