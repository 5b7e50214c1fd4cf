//! Texts that should spell handles.

ghost use Rattle.std.specs.Prelude.{◌≡◌, ◌<◌, IfOk, length, option_map};
ghost use Rattle.table_terms.specs.Words.{end_or_handle, handle_for, position_for, record_for, spelled};

use crate::indices::index_named;
use crate::kinds::Kinds;
use std::alloc::{AllocError, Global};
use table_cmd::{Handle, HandleText};
use table_reply::Fault;
use table_schema::IndexSpec;

/// The handle that a text spells. The fault is `handle` where it spells none. O(1).
pub fn handle_for(text: HandleText) -> Result<Handle, Fault>
    ensures { result ≡ handle_for text }
{
    match text {
        HandleText::Handle(handle) => Ok(handle),
        HandleText::Bad => Err(Fault::Handle),
    }
}

// The position that is asked for, where no text is the end.
fn end_or_handle(text: Option<HandleText>) -> Result<Option<Handle>, Fault>
    ensures { result ≡ end_or_handle text }
{
    match text {
        None => Ok(None),
        Some(HandleText::Handle(handle)) => Ok(Some(handle)),
        Some(HandleText::Bad) => Err(Fault::Handle),
    }
}

/// The handles that texts spell, in their order, where each spells one. O(texts).
pub fn handles_for(alloc: Global, texts: &[HandleText]) -> Result<Option<Vec<Handle>>, AllocError>
    ensures { IfOk result (λ handles. option_map (λ hs. hs.items) handles ≡ spelled texts.now) }
{
    let mut handles = Vec::with_capacity(alloc, texts.len())?;
    for text in texts {
        let HandleText::Handle(handle) = *text else {
            return Ok(None);
        };
        handles.push(handle)?;
    }
    Ok(Some(handles))
}

/// The number of the index of a name, where it is of one of the kinds, and the handle that a text spells, or the first
/// fault of the two. O(indices).
pub fn record_for(
    indices: &[IndexSpec],
    kinds: Kinds,
    name: &str,
    text: HandleText,
) -> Result<(usize, Handle), Fault>
    ensures record { result ≡ record_for kinds indices.now name.now text }
    ensures within { IfOk result (λ at. at.0 < length indices.now) }
{
    let index = index_named(indices, kinds, name)?;
    let handle = handle_for(text)?;
    Ok((index, handle))
}

/// The number of the index of a name, where it is of one of the kinds, and the position that is asked for there, where no
/// text is the end; or the first fault of the two. O(indices).
pub fn position_for(
    indices: &[IndexSpec],
    kinds: Kinds,
    name: &str,
    text: Option<HandleText>,
) -> Result<(usize, Option<Handle>), Fault>
    ensures position { result ≡ position_for kinds indices.now name.now text }
    ensures within { IfOk result (λ at. at.0 < length indices.now) }
{
    let index = index_named(indices, kinds, name)?;
    let position = end_or_handle(text)?;
    Ok((index, position))
}
