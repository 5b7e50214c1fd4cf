//! What bans a record.
ghost use Rattle.any_index.specs.Keyed.{marks_of};
ghost use Rattle.std.specs.Prelude.{◌≡◌, Option, Some, None, IfOk, IfErr, OnOk};
ghost use Rattle.node_store.specs.ByNode.{record_of, columns_in};
ghost use Rattle.container_model.specs.State.{KeysMatch};
ghost use Rattle.any_index.specs.Side.{AreNodesOf};
ghost use Rattle.index_set.specs.Changed.{AreFreeBeside};
ghost use Rattle.index_set.specs.Indices.{ArePlaced, lists_in, AreKeyedExcept};
ghost use Rattle.index_set.specs.Lists.{ban_from, AreUniqueFrom};
ghost use Rattle.index_set.specs.Places.{place_from};

use crate::changed::Changed;
use crate::places::{FreePlace, behind};
use any_index::AnyIndex;
use container_model::Spec;
use key_extract::Extract;
use node_store::{Node, NodeStore};

// The first unique index in which a node other than the excepted one has the record's key, with that node. Indices at which
// the key has not changed are not asked.
pub(crate) fn first_ban<R, E: Extract<R>>(
    store: &NodeStore<R>,
    keys: &E,
    specs: &[Spec],
    indices: &[AnyIndex],
    r: &R,
    except: Option<Node>,
    changed: Changed,
) -> Option<(usize, Node)>
    requires placed { ArePlaced (columns_in store.now) specs.now indices.now }
    requires keys { KeysMatch (E.has_key keys.now) specs.now }
    requires except { AreNodesOf store.now except }
    requires keyed { AreKeyedExcept (E.order_of keys.now)
        (marks_of E.Extract keys.now) store.now specs.now indices.now except }
    requires unique { AreUniqueFrom (E.order_of keys.now) (record_of store.now) except 0 specs.now
        (lists_in (columns_in store.now) indices.now) }
    requires free { AreFreeBeside (E.order_of keys.now) changed (record_of store.now) specs.now
        (lists_in (columns_in store.now) indices.now) except r.now }
    ensures { result ≡ ban_from (E.order_of keys.now) (record_of store.now)
        (lists_in (columns_in store.now) indices.now) except r.now 0 specs.now }
{
    for index in 0..specs.len() {
        if specs[index].unique && changed.has(index) {
            if let Some(by) = indices[index].same_as(store, keys, r, except) {
                return Some((index, by));
            }
        }
    }
    None
}

// The first unique index in which a node has the record's key, with that node, as an `Err`. Where none has it, the record's
// place in the first of the unique trees in which a node comes before it.
pub(crate) fn free_place<R, E: Extract<R>>(
    store: &NodeStore<R>,
    keys: &E,
    specs: &[Spec],
    indices: &[AnyIndex],
    r: &R,
) -> Result<Option<FreePlace>, (usize, Node)>
    requires placed { ArePlaced (columns_in store.now) specs.now indices.now }
    requires keys { KeysMatch (E.has_key keys.now) specs.now }
    requires keyed { AreKeyedExcept (E.order_of keys.now)
        (marks_of E.Extract keys.now) store.now specs.now indices.now None }
    requires unique { AreUniqueFrom (E.order_of keys.now) (record_of store.now) None 0 specs.now
        (lists_in (columns_in store.now) indices.now) }
    ensures free { OnOk result (ban_from (E.order_of keys.now) (record_of store.now)
        (lists_in (columns_in store.now) indices.now) None r.now 0 specs.now ≡ None) }
    ensures place { IfOk result (λ place. place ≡ place_from (E.order_of keys.now)
        (record_of store.now) (lists_in (columns_in store.now) indices.now) r.now 0 specs.now) }
    ensures taken { IfErr result (λ by. ban_from (E.order_of keys.now) (record_of store.now)
        (lists_in (columns_in store.now) indices.now) None r.now 0 specs.now ≡ Some by) }
{
    let mut place = None;
    for index in 0..specs.len() {
        if specs[index].unique {
            match indices[index].free_place(store, keys, r) {
                Ok(last) => place = place.or(behind(index, last)),
                Err(by) => return Err((index, by)),
            }
        }
    }
    Ok(place)
}
