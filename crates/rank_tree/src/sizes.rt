//! What a ranked index keeps of its subtrees.
ghost use Rattle.rank_tree.specs.Subtrees.{size_tally};

use ord_tree::{OrdTree, Tally};

/// An ordered tree where the tag of each node is the size of its subtree.
pub type RankTree = OrdTree<Sizes>;

/// Keeps the number of nodes of each subtree.
pub struct Sizes;

impl Tally for Sizes {
    ghost of = { size_tally };

    fn of(left: u64, right: u64) -> u64 {
        left.wrapping_add(right).wrapping_add(1)
    }

    fn moved(tally: u64, before: u64, now: u64) -> u64 {
        tally.wrapping_add(now).wrapping_sub(before)
    }
}
