//! Places that may have a node.
ghost use Rattle.std.specs.Prelude.{◌≡◌, None};

use crate::Node;
use crate::blocks::Place;
use std::marker::Model;

/// A node or none, in one pointer: none is null.
#[derive(Clone, Copy)]
pub struct MaybeNode {
    place: Place,
}

impl Model for MaybeNode {
    ghost use Rattle.std.specs.Prelude.{Option};
    ghost use Rattle.std.specs.Coded.{coded_option};
    ghost use Rattle.node_store.specs.declared.Node.{Node};
    ghost use Rattle.node_store.specs.contracts.Node.{the_row as node_row};
    ghost use Rattle.node_store.specs.Node.{IsStart, node_there, place_there, place_back};

    ghost Value = { Option Node };

    ghost coded = { coded_option node_row.coded };

    ghost view = { λ m. node_there m.place.ptr };

    ghost inverse = { λ o. record { place = record { ptr = place_there o } } };

    ghost inverse_ok = { λ m start. λ i. record { place = record { ptr = place_back m.place.ptr start i } } };

    ghost invariant = { λ m. IsStart m.place.ptr };
}

impl MaybeNode {
    /// None.
    #[inline(always)]
    pub fn none() -> MaybeNode
        ensures { result ≡ None }
    {
        MaybeNode {
            place: Place::nowhere(),
        }
    }

    /// The node, if there is one.
    #[inline(always)]
    pub fn node(self) -> Option<Node>
        ensures { result ≡ self }
    {
        if self.place.is_nowhere() {
            None
        } else {
            Some(Node { place: self.place })
        }
    }

    /// The node, or none.
    #[inline(always)]
    pub fn of(node: Option<Node>) -> MaybeNode
        ensures { result ≡ node }
    {
        match node {
            Some(node) => MaybeNode { place: node.place },
            None => MaybeNode::none(),
        }
    }
}
