//! Answers that wait to be written.

ghost use Rattle.std.specs.Borrow.{sem};
ghost use Rattle.std.specs.Prelude.{◌≡◌, ◌≤◌, ◌++◌, [], List, ℕ, IfOk, IsTrue, OnErr, OnOk};
ghost use Rattle.std.specs.Io.KnownBytes.{Appends};
ghost use Rattle.table_engine.specs.Devices.{AppendsFront, failures_after};
ghost use Rattle.table_reply.specs.Ready.{Rests};

use std::alloc::{AllocError, Global};
use std::convert::Infallible;
use std::io::Write;
use table_engine::{PIECE, Sink, Unwritten};
use table_reply::{Out, READY_ROOM, Ready};

/// Where more bytes than these wait, they are written out before a further line is carried out.
const FULL: usize = 65_536;

/// Where more bytes than these were written out, the buffer's memory is given back.
const LARGE: usize = 1_048_576;

/// More than what the lines of a piece mostly keep.
const AHEAD: usize = 256 * 1024;

/// Where a whole piece was read, takes memory and gives it back at once, if it is there. The allocator then has it at hand for
/// this thread. Otherwise it asks the system for each page that a table grows by, and each time all threads wait that ask or
/// meet a new page. O(1).
pub(crate) fn grow_ahead(alloc: Global, read: usize) {
    if read == PIECE {
        let _ahead: Result<Vec<u8>, AllocError> = Vec::with_capacity(alloc, AHEAD);
    }
}

/// Whether there is room for a further answer: no more than 64 KiB wait, and memory for more is not refused.
pub(crate) fn has_room(out: &mut Out) -> bool
    ensures bytes { out.new.bytes ≡ out.old.bytes }
    ensures room { IsTrue result → READY_ROOM ≤ out.new.room }
{
    out.bytes().len() <= FULL && out.reserve(READY_ROOM).is_ok()
}

/// A buffer that has room for an answer.
pub(crate) fn ready_in(out: &mut Out) -> Result<Ready<'_>, Infallible>
    requires { READY_ROOM ≤ out.old.room }
    ensures* rests { sem 𝓛 (Rests out.entry result) }
    ensures same { IfOk result (λ ready. ready.out.ghost_name ≡ out.entry.ghost_name) }
    ensures bytes { IfOk result (λ ready. ready.out.now.bytes ≡ out.old.bytes) }
{
    Ok(Ready { out })
}

/// Writes the answers out where there is no room for a further one.
pub(crate) fn make_room<W: Write>(
    alloc: Global,
    sink: &mut Sink<W>,
    out: &mut Out,
) -> Result<(), Unwritten>
    ensures written { OnOk result ((text : List ℕ) × Appends (W.contents sink.old.inner) (W.contents sink.new.inner) text × (text ++ out.new.bytes ≡ out.old.bytes)) }
    ensures ready { OnOk result (READY_ROOM ≤ out.new.room) }
    ensures unwritten { OnErr result (AppendsFront (W.contents sink.old.inner) (W.contents sink.new.inner) out.old.bytes) }
    ensures failures { sink.new.failures ≡ failures_after result sink.old.failures }
{
    if has_room(out) {
        return Ok(());
    }
    write_out(alloc, sink, out)
}

/// Writes the answers out, in one write where the writer takes them whole, and empties the buffer. At an `Err` a front of them
/// is written.
pub(crate) fn write_out<W: Write>(
    alloc: Global,
    sink: &mut Sink<W>,
    out: &mut Out,
) -> Result<(), Unwritten>
    ensures written { OnOk result (Appends (W.contents sink.old.inner) (W.contents sink.new.inner) out.old.bytes) }
    ensures empty { OnOk result (out.new.bytes ≡ []) }
    ensures ready { OnOk result (READY_ROOM ≤ out.new.room) }
    ensures unwritten { OnErr result (AppendsFront (W.contents sink.old.inner) (W.contents sink.new.inner) out.old.bytes) }
    ensures failures { sink.new.failures ≡ failures_after result sink.old.failures }
{
    sink.write_all(out.bytes())?;
    empty_out(alloc, out);
    Ok(())
}

// Empties the buffer. Memory for many bytes is given back, where memory for an answer is there.
fn empty_out(alloc: Global, out: &mut Out)
    ensures empty { out.new.bytes ≡ [] }
    ensures ready { READY_ROOM ≤ out.new.room }
{
    if out.bytes().len() > LARGE
        && let Ok(small) = Out::new(alloc)
    {
        *out = small;
        return;
    }
    out.clear();
}
