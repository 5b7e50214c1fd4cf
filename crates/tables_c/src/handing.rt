//! Answers that are handed out.

ghost use Rattle.tables_c.specs.Calls.{Hands};

use crate::status::{OK, ROOM};
use table_reply::Out;

// Moves the answers that wait to the front of the room, if they fit, and tells how long they are.
pub(crate) fn hand_out(out: &mut Out, room: &mut [u8]) -> (u8, usize)
    ensures { Hands out.old room.old result.0 result.1 room.new out.new }
{
    let bytes = out.bytes();
    let length = bytes.len();
    if length > room.len() {
        return (ROOM, length);
    }
    let (front, _) = room.split_at_mut(length);
    front.copy_from_slice(bytes);
    out.clear();
    (OK, length)
}
