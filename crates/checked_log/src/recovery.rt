//! What a start makes of a log.

ghost use Rattle.std.specs.Prelude.{◌≡◌};
ghost use Rattle.checked_log.specs.Recover.{recovered_of};

use crate::fields::cut_at;
use crate::walk::Walk;

/// A write's number with the digest of its line. A log begins behind one: that of the state, or number 0 with a digest of the declaration.
#[derive(Clone, Copy, Debug, PartialEq, Eq)]
pub struct Link {
    pub number: u64,
    pub digest: u64,
}

/// What stands behind the whole log.
#[derive(Clone, Copy, Debug, PartialEq, Eq)]
pub struct Behind {
    /// How many bytes.
    pub bytes: usize,
    /// How many well-formed lines are among them.
    pub lines: usize,
    /// The number of the first of these.
    pub first: Option<u64>,
}

/// What is there of a log.
#[derive(Clone, Copy, Debug, PartialEq, Eq)]
pub struct Recovered {
    /// The last write of the whole log.
    pub last: Link,
    /// Where the whole log ends. What stands behind is cut.
    pub end: usize,
    /// All writes up to this number are known to be durable.
    pub durable: u64,
    /// What is cut.
    pub behind: Behind,
}

/// Why a log is refused. Nothing of it is to be changed.
#[derive(Clone, Copy, Debug, PartialEq, Eq)]
pub enum Refusal {
    /// Durable writes are not there: those behind this number, up to that.
    Hurt { whole: u64, durable: u64 },
    /// The mark of this number is of another log.
    Strange { number: u64 },
}

/// What is there of a log that begins behind `base`, beside a mark. O(bytes).
pub fn recover(bytes: &[u8], base: Link, mark: Option<Link>) -> Result<Recovered, Refusal>
    ensures { result ≡ recovered_of base mark bytes.now }
{
    let count = bytes.len();
    let mut walk = Walk::new(base, mark);
    let mut left = bytes;
    while let Some((line, rest)) = cut_at(left, b'\n') {
        let _ = walk.take(mark, line);
        left = rest;
    }
    walk.judge(mark, count)
}
