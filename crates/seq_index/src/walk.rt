//! Walks along a chain to a place.
ghost use Rattle.std.specs.Prelude.{◌≤◌, length};
ghost use Rattle.seq_index.specs.Links.{AreNodesOf};
ghost use Rattle.seq_index.specs.Stored.{nodes_of, IsChainOf, StandBeside};

use crate::SeqIndex;
use node_store::{Node, NodeStore};

impl SeqIndex {
    // The node before the place and the one at it, by a walk from the nearer end.
    pub(crate) fn ends_at<R>(
        &self,
        store: &NodeStore<R>,
        place: u64,
    ) -> (Option<Node>, Option<Node>)
        requires chain { IsChainOf self.now store.now }
        requires place { place ≤ length (nodes_of self.now store.now) }
        ensures ends { StandBeside (nodes_of self.now store.now) place result }
        ensures before_held { AreNodesOf store.now result.0 }
        ensures after_held { AreNodesOf store.now result.1 }
    {
        if place <= self.len / 2 {
            self.ends_from_front(store, place)
        } else {
            self.ends_from_back(store, place)
        }
    }

    fn ends_from_front<R>(&self, store: &NodeStore<R>, place: u64) -> (Option<Node>, Option<Node>)
        requires chain { IsChainOf self.now store.now }
        requires place { place ≤ length (nodes_of self.now store.now) }
        ensures { StandBeside (nodes_of self.now store.now) place result }
    {
        let mut before = None;
        let mut after = self.first;
        let mut steps = 0;
        while steps < place {
            let Some(n) = after else { unreachable!() };
            before = Some(n);
            after = store.link(n, self.col).b;
            steps += 1;
        }
        (before, after)
    }

    fn ends_from_back<R>(&self, store: &NodeStore<R>, place: u64) -> (Option<Node>, Option<Node>)
        requires chain { IsChainOf self.now store.now }
        requires place { place ≤ length (nodes_of self.now store.now) }
        ensures { StandBeside (nodes_of self.now store.now) place result }
    {
        let mut before = self.last;
        let mut after = None;
        let mut at = self.len;
        while place < at {
            let Some(n) = before else { unreachable!() };
            after = Some(n);
            before = store.link(n, self.col).a;
            at -= 1;
        }
        (before, after)
    }
}
