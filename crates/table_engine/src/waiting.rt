//! Answers that wait to be written.

ghost use Rattle.std.specs.Borrow.{sem};
ghost use Rattle.std.specs.Prelude.{◌≡◌, ◌≤◌, ◌++◌, [], List, ℕ, IfOk, OnOk, OnErr};
ghost use Rattle.std.specs.Io.KnownBytes.{Appends};
ghost use Rattle.table_engine.specs.Devices.{AppendsFront, failures_after};
ghost use Rattle.table_engine.specs.Waiting.{RestsUnlessUnwritten};

use crate::sink::{Sink, Unwritten};
use std::alloc::Global;
use std::io::Write;
use table_reply::{Out, READY_ROOM, Ready};

/// Where more bytes than these wait, they are written out before a further line is carried out.
const FULL: usize = 65_536;

/// Where more bytes than these were written out, the buffer's memory is given back.
const LARGE: usize = 1_048_576;

/// The buffer with room for a further answer. The answers are written out where they are more than 64 KiB, or memory for more
/// is refused.
pub(crate) fn make_room<'o, W: Write>(
    out: &'o mut Out,
    alloc: Global,
    sink: &mut Sink<W>,
) -> Result<Ready<'o>, Unwritten>
    ensures* rests { sem 𝓛 (RestsUnlessUnwritten out.entry result) }
    ensures same { IfOk result (λ ready. ready.out.ghost_name ≡ out.entry.ghost_name) }
    ensures written { IfOk result (λ ready. (text : List ℕ) × Appends (W.contents sink.old.inner) (W.contents sink.new.inner) text × (text ++ ready.out.now.bytes ≡ out.old.bytes)) }
    ensures unwritten { OnErr result (AppendsFront (W.contents sink.old.inner) (W.contents sink.new.inner) out.old.bytes) }
    ensures failures { sink.new.failures ≡ failures_after result sink.old.failures }
{
    write_full(alloc, sink, out)?;
    Ok(Ready { out })
}

// Writes the answers out where they are more than 64 KiB, or memory for more is refused.
fn write_full<W: Write>(alloc: Global, sink: &mut Sink<W>, out: &mut Out) -> Result<(), Unwritten>
    ensures written { OnOk result ((text : List ℕ) × Appends (W.contents sink.old.inner) (W.contents sink.new.inner) text × (text ++ out.new.bytes ≡ out.old.bytes)) }
    ensures ready { OnOk result (READY_ROOM ≤ out.new.room) }
    ensures unwritten { OnErr result (AppendsFront (W.contents sink.old.inner) (W.contents sink.new.inner) out.old.bytes) }
    ensures failures { sink.new.failures ≡ failures_after result sink.old.failures }
{
    if out.bytes().len() > FULL || out.reserve(READY_ROOM).is_err() {
        return write_out(alloc, sink, out);
    }
    Ok(())
}

/// Writes the answers out, in one write where the writer takes them whole, and empties the buffer. At an `Err` a front of them
/// is written.
pub(crate) fn write_out<W: Write>(
    alloc: Global,
    sink: &mut Sink<W>,
    out: &mut Out,
) -> Result<(), Unwritten>
    ensures written { OnOk result (Appends (W.contents sink.old.inner) (W.contents sink.new.inner) out.old.bytes) }
    ensures empty { OnOk result (out.new.bytes ≡ []) }
    ensures ready { OnOk result (READY_ROOM ≤ out.new.room) }
    ensures unwritten { OnErr result (AppendsFront (W.contents sink.old.inner) (W.contents sink.new.inner) out.old.bytes) }
    ensures failures { sink.new.failures ≡ failures_after result sink.old.failures }
{
    sink.write_all(out.bytes())?;
    empty_out(alloc, out);
    Ok(())
}

// Empties the buffer. Memory for many bytes is given back, where memory for an answer is there.
fn empty_out(alloc: Global, out: &mut Out)
    ensures empty { out.new.bytes ≡ [] }
    ensures ready { READY_ROOM ≤ out.new.room }
{
    if out.bytes().len() > LARGE
        && let Ok(small) = Out::new(alloc)
    {
        *out = small;
        return;
    }
    out.clear();
}
