//! The first node of a chain, with a mark of its hash.
ghost use Rattle.std.specs.Prelude.{◌≡◌, ◌↔◌, ◌+◌, ◌/◌, ◌<◌, ◌≤◌, ◌^◌, IsTrue, cond, IsSomeAnd, Some, None};
ghost use Rattle.node_store.specs.declared.Node.{Node};
ghost use Rattle.node_store.specs.Store.{IsNodeOf};
ghost use Rattle.hash_index.specs.Heads.{first_in, alone_in, hinted_in, is_empty, passes};

use node_store::{Node, NodeStore};

// What a mark has beside the top six bits of a hash: that the node is the only one of its chain, that others may follow,
// or that others may follow, of which those that have its hash were added after it.
const ALONE: u8 = 0x40;

const FOLLOWED: u8 = 0x80;

const OLDEST: u8 = 0xC0;

// The first node of a chain, if there is one. The mark is 0 where there is no node, and else has the top six bits of the
// hash that the node was put in with. A look-up reads the record of a node that has its bits before it reads any link,
// and reads nothing of a node that is alone and has others.
#[derive(Clone, Copy)]
pub(crate) struct Head {
    pub(crate) mark: u8,
    pub(crate) node: Option<Node>,
}

// The top six bits of a hash.
fn top(hash: u64) -> u8
    ensures { result ≡ hash / 2 ^ 58 }
{
    (hash >> 58) as u8
}

// Whether a look-up of a hash passes a chain with this mark: it has no node, or one that is alone and has other bits.
pub(crate) fn passes(hash: u64, mark: u8) -> bool
    ensures { result ≡ passes hash mark }
{
    mark < FOLLOWED && mark != top(hash) + ALONE
}

// Whether a mark says that there is no node.
pub(crate) fn is_empty(mark: u8) -> bool
    ensures { result ≡ is_empty mark }
{
    mark < ALONE
}

// Whether these are one node.
fn is_same<R>(store: &NodeStore<R>, first: Option<Node>, other: Option<Node>) -> bool
    requires first { (n : Node) → first ≡ Some n → IsNodeOf store.now n }
    requires other { (n : Node) → other ≡ Some n → IsNodeOf store.now n }
    ensures { IsTrue result ↔ IsSomeAnd other (λ n. first ≡ Some n) }
{
    match other {
        Some(n) => store.is_node(first, n),
        None => false,
    }
}

impl Head {
    // The head of a chain of no nodes.
    pub(crate) fn none() -> Head
        ensures first { first_in result ≡ None }
        ensures mark { result.mark ≡ 0 }
    {
        Head {
            mark: 0,
            node: None,
        }
    }

    // The head of a chain that begins with this node, which has this hash, and which others may follow or not.
    pub(crate) fn of(node: Node, hash: u64, followed: bool) -> Head
        ensures first { first_in result ≡ Some node }
        ensures mark { result.mark ≡ hash / 2 ^ 58 + cond followed 128 64 }
        ensures plain { result.mark < 192 }
    {
        let beside = if followed { FOLLOWED } else { ALONE };
        Head {
            mark: top(hash) + beside,
            node: Some(node),
        }
    }

    // The head of the chain once another node comes behind the first, and after it if it has its hash.
    pub(crate) fn joined(self) -> Head
        ensures first { first_in result ≡ first_in self }
        ensures followed { 128 ≤ result.mark }
        ensures oldest { 192 ≤ result.mark → 128 ≤ self.mark → 192 ≤ self.mark }
    {
        if self.mark < FOLLOWED {
            Head {
                mark: self.mark + FOLLOWED,
                node: self.node,
            }
        } else {
            self
        }
    }

    // The head of a chain that a longer one was cut to: where both begin with the same node, the oldest of its hash stays
    // that.
    pub(crate) fn cut_from<R>(self, store: &NodeStore<R>, longer: Head) -> Head
        requires plain { self.mark < 192 }
        requires node { (n : Node) → first_in self ≡ Some n → IsNodeOf store.now n }
        requires longer { (n : Node) → first_in longer ≡ Some n → IsNodeOf store.now n }
        ensures first { first_in result ≡ first_in self }
        ensures kept { result.mark < 128 → result ≡ self }
        ensures oldest { 192 ≤ result.mark → 192 ≤ longer.mark }
        ensures same { 192 ≤ result.mark → first_in result ≡ first_in longer }
    {
        if FOLLOWED <= self.mark
            && OLDEST <= longer.mark
            && is_same(store, longer.node, self.node)
        {
            Head {
                mark: self.mark % ALONE + OLDEST,
                node: self.node,
            }
        } else {
            self
        }
    }

    // Whether no other node of the chain that has the first one's hash was added before it, as the mark says.
    pub(crate) fn is_oldest(self) -> bool
        ensures { IsTrue result ↔ 192 ≤ self.mark }
    {
        OLDEST <= self.mark
    }

    // The node, if the mark says that it is alone.
    pub(crate) fn alone(self) -> Option<Node>
        ensures { result ≡ alone_in self }
    {
        if self.mark < FOLLOWED {
            self.node
        } else {
            None
        }
    }

    // The node, if there is one.
    pub(crate) fn node(self) -> Option<Node>
        ensures { result ≡ first_in self }
    {
        self.node
    }

    // The node, if it has the bits of this hash.
    pub(crate) fn hinted(self, hash: u64) -> Option<Node>
        ensures { result ≡ hinted_in hash self }
    {
        if self.mark % ALONE == top(hash) {
            self.node
        } else {
            None
        }
    }
}
