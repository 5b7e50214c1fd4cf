//! Bytes that are written over others.

ghost use Rattle.std.specs.Prelude.{◌≡◌, ◌+◌, ◌≤◌, ◌++◌, drop, length, take};

/// Writes a piece over the bytes that stand at a place.
pub(crate) fn put(bytes: &mut [u8], place: usize, piece: &[u8])
    requires { place + length piece.now ≤ length bytes.old }
    ensures { bytes.new ≡ take place bytes.old ++ (piece.now ++ drop (place + length piece.now) bytes.old) }
{
    bytes[place..place + piece.len()].copy_from_slice(piece);
}
