//! What a text that should spell a handle says.

ghost use Rattle.std.specs.Prelude.{◌≡◌, IfSome, IsSomeAnd, bytes_eq};
ghost use Rattle.container_model.specs.declared.handle.Handle.{Handle as Named};
ghost use Rattle.table_reply.specs.Spelling.{HandleFits, spelling};
ghost use Rattle.command_lines.specs.Spelling.{handle_said};

use container_model::Handle;
use table_cmd::HandleText;
use table_reply::spelling;

// The handle that a text spells.
pub(crate) fn handle_said(text: &str) -> HandleText
    ensures { result ≡ handle_said text.now }
{
    match numbers_of(text) {
        Some(handle) => if is_spelling(text, handle) {
            HandleText::Handle(handle)
        } else {
            HandleText::Bad
        },
        None => HandleText::Bad,
    }
}

fn is_spelling(text: &str, handle: Handle) -> bool
    ensures { result ≡ bytes_eq text.now (spelling handle) }
{
    text == spelling(handle).as_str()
}

// The numbers around the first colon; they may be written otherwise than a handle is spelled.
fn numbers_of(text: &str) -> Option<Handle>
    ensures spelled { (h : Named) → HandleFits h → text.now ≡ spelling h → IsSomeAnd result (λ k. k ≡ h) }
    ensures fits { IfSome result HandleFits }
{
    let (slot, stamp) = text.split_once(':')?;
    match (slot.parse(), stamp.parse()) {
        (Ok(slot), Ok(stamp)) => Some(Handle { slot, stamp }),
        _ => None,
    }
}
