//! How records stand to keys, by their digests where those differ.
ghost use Rattle.std.specs.Prelude.{◌≡◌, ◌/◌, ◌^◌, IsTrue, Some, cond};
ghost use Rattle.node_store.specs.Digest.{digest_number};

use key_extract::Extract;
use node_store::{Digest, Node};
use std::cmp::Ordering;

/// How a record stands to a probe, where `own` is its digest and `sought` that of the probe. It reads the record only where
/// they are equal.
#[inline(always)]
pub fn order_to_probe<R, E: Extract<R>>(
    keys: &E,
    index: usize,
    own: Digest,
    held: &R,
    sought: Digest,
    probe: &E::Probe,
) -> Ordering
    requires key { IsTrue (E.has_key keys.now index) }
    requires fits { IsTrue (E.does_fit keys.now index probe.now) }
    requires own { digest_number own ≡ E.digest_of keys.now index held.now / 2 ^ 16 }
    requires sought { digest_number sought ≡ E.probe_digest_of keys.now index probe.now / 2 ^ 16 }
    ensures { result ≡ E.probe_order_of keys.now index held.now probe.now }
{
    match own.compare(sought) {
        Ordering::Equal => keys.order_probe(index, held, probe),
        order => order,
    }
}

/// How a record stands to another, where `own` is its digest and `sought` that of the other. It reads the records only where
/// they are equal.
#[inline(always)]
pub(crate) fn order_to_record<R, E: Extract<R>>(
    keys: &E,
    index: usize,
    own: Digest,
    held: &R,
    sought: Digest,
    other: &R,
) -> Ordering
    requires key { IsTrue (E.has_key keys.now index) }
    requires own { digest_number own ≡ E.digest_of keys.now index held.now / 2 ^ 16 }
    requires sought { digest_number sought ≡ E.digest_of keys.now index other.now / 2 ^ 16 }
    ensures { result ≡ E.order_of keys.now index held.now other.now }
{
    match own.compare(sought) {
        Ordering::Equal => keys.order(index, held, other),
        order => order,
    }
}

/// The one node where `first` holds, and else the other. A choice of values in place of a branch, which would be mispredicted.
#[inline(always)]
pub(crate) fn either(first: bool, one: Node, other: Option<Node>) -> Option<Node>
    ensures { result ≡ cond first (Some one) other }
{
    if first { Some(one) } else { other }
}
