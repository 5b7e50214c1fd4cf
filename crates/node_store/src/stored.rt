//! Links as a column keeps them.
ghost use Rattle.std.specs.Prelude.{◌≡◌, cond};
ghost use Rattle.node_store.specs.Stored.{link_of};

use crate::{Digest, Link, MaybeNode, Node};

/// Links in which an absent node is null. What a descent reads stands first: `a` and `b` side by side, and the digest.
#[derive(Clone, Copy)]
pub(crate) struct Stored {
    sides: [MaybeNode; 2],
    high: u32,
    low: u16,
    height: u8,
    tag: u64,
    up: MaybeNode,
}

/// Links in so many columns.
#[derive(Drop)]
pub(crate) struct Row<const N: usize> {
    pub(crate) row: [Stored; N],
}

impl Stored {
    /// The links.
    #[inline(always)]
    pub(crate) fn of(link: Link) -> Stored
        ensures { link_of result ≡ link }
    {
        Stored {
            sides: [MaybeNode::of(link.a), MaybeNode::of(link.b)],
            high: link.digest.high,
            low: link.digest.low,
            height: link.height,
            tag: link.tag,
            up: MaybeNode::of(link.up),
        }
    }

    /// Keeps another tag, and the same links and height.
    #[inline(always)]
    pub(crate) fn set_tag(&mut self, tag: u64)
        ensures { self.new ≡ record self.old { tag = tag } }
    {
        self.tag = tag;
    }

    /// The link `b`, or `a`.
    #[inline(always)]
    pub(crate) fn side(&self, second: bool) -> Option<Node>
        ensures { result ≡ cond second (link_of self.now).b (link_of self.now).a }
    {
        self.sides[second as usize].node()
    }

    /// The links that were stored.
    #[inline(always)]
    pub(crate) fn link(self) -> Link
        ensures { result ≡ link_of self }
    {
        Link {
            a: self.sides[0].node(),
            b: self.sides[1].node(),
            up: self.up.node(),
            tag: self.tag,
            height: self.height,
            digest: Digest {
                high: self.high,
                low: self.low,
            },
        }
    }
}
