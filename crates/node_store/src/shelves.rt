//! Records in blocks of one of several widths.
ghost use Rattle.std.specs.Prelude.{◌≡◌, Some};
ghost use Rattle.std.specs.Borrow.{sem};
ghost use Rattle.node_store.specs.Store.{IsNodeOf};
ghost use Rattle.node_store.specs.ByNode.{record_of};
ghost use Rattle.node_store.specs.Shelves.{shelved};

use crate::Node;
use crate::shelf::Shelf;

// Records with their links in so many columns.
#[derive(Drop)]
pub(crate) enum Shelves<R> {
    One(Shelf<R, 1>),
    Two(Shelf<R, 2>),
    Three(Shelf<R, 3>),
    Four(Shelf<R, 4>),
    Five(Shelf<R, 5>),
    Six(Shelf<R, 6>),
    Seven(Shelf<R, 7>),
    Eight(Shelf<R, 8>),
}

impl<R> Shelves<R> {
    ghost use Rattle.node_store.specs.ShelvesLends.{lends_record_in};

    // The node's record for writing. No link changes.
    pub(crate) fn get_mut(&mut self, n: Node) -> &mut R
        requires { IsNodeOf (shelved self.old) n }
        ensures* writes_back { sem 𝓛 (lends_record_in R.row self.entry n result) }
        ensures value { record_of (shelved self.old) n ≡ Some result.now }
    {
        match self {
            Shelves::One(shelf) => shelf.get_mut(n),
            Shelves::Two(shelf) => shelf.get_mut(n),
            Shelves::Three(shelf) => shelf.get_mut(n),
            Shelves::Four(shelf) => shelf.get_mut(n),
            Shelves::Five(shelf) => shelf.get_mut(n),
            Shelves::Six(shelf) => shelf.get_mut(n),
            Shelves::Seven(shelf) => shelf.get_mut(n),
            Shelves::Eight(shelf) => shelf.get_mut(n),
        }
    }
}
