//! One session over a reader and a writer.

ghost use Rattle.std.specs.Prelude.{◌≡◌, ◌<◌, ◌++◌, [], ◌∷◌, List, length, Err, OnOk};
ghost use Rattle.table_engine.specs.Devices.{IsFront};
ghost use Rattle.table_engine.specs.Outcomes.{IsServed, IsUnread, IsUntouched, IsUnwritten};
ghost use Rattle.table_engine.specs.Run.{Signal, bytes_of, end};
ghost use Rattle.table_engine.specs.Whole.{BreaksOff, Serves};

use crate::engine::Engine;
use crate::serve::serve_lines;
use crate::sink::Sink;
use crate::source::Source;
use crate::stopped::Stopped;
use std::alloc::Global;
use std::io::{Read, Write};
use thiserror::Error;

/// The most bytes that are read at a time.
pub const PIECE: usize = 4096;

/// Why a stream was not served to its end.
#[derive(Clone, Copy, Debug, PartialEq, Eq, Error)]
pub enum StreamFault {
    /// A read failed, or 4,294,967,295 reads were made.
    #[error("a read failed")]
    Read,
    /// A write failed, or took no byte.
    #[error("a write failed")]
    Write,
    /// Memory was refused before anything was read.
    #[error("no memory")]
    Memory,
}

/// Serves a session's stream to its end. Up to 4,096 bytes are read at a time, and what they are answered is written
/// before more are read, in one write where it is at most 64 KiB and the writer takes it whole. The writer is not flushed.
///
/// It ends where the reader tells its end. A fault is answered only where a read or a write failed in the call, or as many
/// reads were made as `StreamFault` says. At `Read` all lines that were completed are answered, at `Write` a front of the
/// answers to what was carried out is written. After both, what the session has of a further line is forgotten, and the
/// session can serve a new stream.
pub fn serve_stream<R: Read, W: Write>(
    alloc: Global,
    engine: &mut Engine,
    session: usize,
    source: &mut Source<R>,
    sink: &mut Sink<W>,
) -> Result<(), StreamFault>
    requires { session < length engine.old.unfinished }
    ensures served { OnOk result (IsServed R.remaining W.contents source.old source.new sink.old sink.new
        (λ bytes text. Serves engine.old session bytes text engine.new)) }
    ensures read { result ≡ Err StreamFault.Read → IsUnread R.remaining W.contents source.old source.new sink.old sink.new
        (λ bytes text. BreaksOff engine.old session (bytes_of session bytes) text engine.new) }
    ensures write { result ≡ Err StreamFault.Write → IsUnwritten R.remaining W.contents source.old source.new sink.old sink.new
        (λ bytes text. (ss : List Signal) × IsFront ss (bytes_of session bytes ++ end session ∷ []) × BreaksOff engine.old session ss text engine.new) }
    ensures memory { result ≡ Err StreamFault.Memory → (engine.new ≡ engine.old) × IsUntouched source.old source.new sink.old sink.new }
    ensures sessions { length engine.new.unfinished ≡ length engine.old.unfinished }
{
    let cutter = &mut engine.cutters[session];
    match serve_lines(alloc, &mut engine.tables, &(), cutter, source, sink) {
        Ok(()) => {}
        Err(Stopped::Read) => return Err(StreamFault::Read),
        Err(Stopped::Write) => return Err(StreamFault::Write),
        Err(Stopped::Memory) => return Err(StreamFault::Memory),
    }
    Ok(())
}
