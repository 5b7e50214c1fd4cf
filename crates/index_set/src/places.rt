//! Where a new record goes in an index.
ghost use Rattle.std.specs.Prelude.{◌≡◌};
ghost use Rattle.index_set.specs.Places.{behind, last_in};

use node_store::Node;

/// Where a new record goes in one of the indices: behind which node. The test for its bans finds it, and its insertion takes it
/// in place of a search.
#[derive(Clone, Copy)]
pub struct FreePlace {
    pub(crate) index: usize,
    pub(crate) last: Node,
}

// The place behind this node of this index, if there is a node.
pub(crate) fn behind(index: usize, last: Option<Node>) -> Option<FreePlace>
    ensures { result ≡ behind index last }
{
    let last = last?;
    Some(FreePlace { index, last })
}

// The node behind which the record goes in the index, where that is known.
pub(crate) fn last_in(known: Option<FreePlace>, index: usize) -> Option<Node>
    ensures { result ≡ last_in known index }
{
    match known {
        Some(place) if place.index == index => Some(place.last),
        _ => None,
    }
}
