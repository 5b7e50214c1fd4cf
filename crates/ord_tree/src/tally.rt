//! What trees keep of their subtrees.
ghost use Rattle.std.specs.Prelude.{◌≡◌, ℕ};

/// What a tree keeps of each of its subtrees, in the tag of its root.
pub trait Tally {
    /// The tally of a subtree, by those of its two sides. That of no node is 0.
    ghost of: { ℕ → ℕ → ℕ };

    /// The tally of a subtree whose two sides have these. O(1).
    fn of(left: u64, right: u64) -> u64
        ensures { result ≡ of left right };

    /// The tally of a subtree once that of one of its sides, which was `before`, is `now`. O(1).
    fn moved(tally: u64, before: u64, now: u64) -> u64
        ensures left { (other : ℕ) → tally ≡ of before other → result ≡ of now other }
        ensures right { (other : ℕ) → tally ≡ of other before → result ≡ of other now };
}

/// Keeps nothing.
pub struct NoTally;

impl Tally for NoTally {
    ghost of = { λ left right. 0 };

    fn of(_left: u64, _right: u64) -> u64 {
        0
    }

    fn moved(_tally: u64, _before: u64, _now: u64) -> u64 {
        0
    }
}
