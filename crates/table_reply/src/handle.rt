//! The spelling of handles.

ghost use Rattle.std.specs.Prelude.{◌≡◌};
ghost use Rattle.table_reply.specs.Spelling.{spelling};

use arrayvec::ArrayString;
use container_model::Handle;
use itoa::Buffer;

/// Room for a slot of 10 digits, a colon, and a stamp of 20 digits.
pub const SPELLING_LEN: usize = 31;

/// A handle's text: its slot, a colon and its stamp. O(1).
#[tactic(auto, unfolding(crate::specs::Spelling::spelling))]
pub fn spelling(handle: Handle) -> ArrayString<SPELLING_LEN>
    ensures { result.bytes ≡ spelling handle }
{
    let mut text = ArrayString::new();
    let mut digits = Buffer::new();
    text.push_str(digits.format(handle.slot));
    text.push_str(":");
    text.push_str(digits.format(handle.stamp));
    text
}
