//! The index of a number, if there is one.
ghost use Rattle.std.specs.Prelude.{◌≡◌, ◌<◌, ◌≤◌, IfSome, IsTrue, None, false, length};
ghost use Rattle.index_set.specs.At.{IsAt};
ghost use Rattle.index_set.specs.Set.{specs_of};

use any_index::IndexRef;
use container_model::Entry;
use index_set::{ByRow, IndexSet, Nodes};
use key_extract::Extract;

/// Whether an index has the number.
#[inline(always)]
pub(crate) fn is_there<R, E: Extract<R>>(set: &IndexSet<Entry<R>, ByRow<E>>, index: usize) -> bool
    ensures there { IsTrue result → index < length (specs_of set.now) }
    ensures past { result ≡ false → length (specs_of set.now) ≤ index }
{
    index < set.specs().len()
}

/// The index of a number, or none where no index has it.
#[inline(always)]
pub(crate) fn index_at<R, E: Extract<R>>(
    set: &IndexSet<Entry<R>, ByRow<E>>,
    index: usize,
) -> Option<IndexRef<'_, Entry<R>, ByRow<E>>>
    ensures there { IfSome result (λ _. index < length (specs_of set.now)) }
    ensures own { IfSome result (IsAt set.now index) }
    ensures none { result ≡ None → length (specs_of set.now) ≤ index }
{
    if is_there(set, index) {
        Some(set.at(index))
    } else {
        None
    }
}
