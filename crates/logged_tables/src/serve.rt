//! A stream of lines that a session serves.

ghost use Rattle.std.specs.Prelude.{◌≡◌, ◌⊎◌, Err, OnOk};
ghost use Rattle.table_engine.specs.Outcomes.{IsRefused, IsServed, IsUnread, IsUnwritten};
ghost use Rattle.table_engine.specs.Whole.{lines_of};
ghost use Rattle.logged_tables.specs.Ends.{EndsAs, failed_sink, whole_sink};
ghost use Rattle.logged_tables.specs.Found.{IsUnsynced};
ghost use Rattle.logged_tables.specs.Hears.{HearsEnded, HearsFront, HearsLines, StopsNext};

use crate::fault::{OverAt, ServeFault};
use crate::peer::Peer;
use crate::seat::Seat;
use crate::synced::Synced;
use command_lines::{CommandFault, LineReader};
use std::io::{Read, Write};
use std::marker::Model;
use std::sync::Wait;
use table_engine::{Answers, LineCutter, Sink, Source, Stopped, serve_lines};
use table_log::Disk;
use table_reply::{Fault, Ready, Told};
use table_step::refuse;

/// How a stream ended, and its writer, which is not flushed.
#[derive(Drop)]
pub struct Served<W> {
    pub writer: W,
    pub end: Result<(), ServeFault>,
}

/// What answers the lines of a session. It knows nothing of tables: its seat does.
#[derive(Drop)]
pub(crate) struct Lines {
    reader: LineReader,
}

impl Model for Lines {
    ghost Value = { Unit {0} };

    ghost view = { λ _. tt };
}

impl<'a, D: Disk, T: Wait> Answers<Seat<'a, D, T>> for Lines {
    ghost use Rattle.logged_tables.specs.Hears.{RefusesTold, TellsText};

    type Refusal = OverAt;

    ghost tells = { λ seat. TellsText seat.names };

    ghost refuses = { λ seat. RefusesTold seat.names };

    fn answer<'o>(
        &mut self,
        seat: &Seat<'a, D, T>,
        line: &[u8],
        out: Ready<'o>,
    ) -> Told<'o, Result<(), OverAt>> {
        match self.reader.read(line) {
            Ok(command) => {
                let told = seat.call(&command, out);
                drop(command);
                told
            }
            Err(CommandFault::Json) => refuse(Fault::Json, out).with(Ok(())),
            Err(CommandFault::Command) => refuse(Fault::Command, out).with(Ok(())),
            Err(CommandFault::Memory) => refuse(Fault::Memory, out).with(Ok(())),
        }
    }
}

impl<'a, D: Disk, T: Wait> Seat<'a, D, T> {
    /// Serves a stream to its end: each line that is a command is carried out under the lock of the table that it names, and any
    /// other line is answered as `table_engine::serve_stream` answers it. Up to 4,096 bytes are read at a time, and what they are
    /// answered is written before more are read, in one write where it is at most 64 KiB and the writer takes it whole. Where the
    /// seat syncs before each answer, the logs that these answers rest on are synced before that write. The writer is not flushed.
    ///
    /// It ends where the reader tells its end. A fault is answered only where a read or a write failed in the call, as many reads
    /// were made as `ServeFault` says, or a log is over. At `Read` all lines that were completed are answered, at `Write` and
    /// `Over` a front of the answers to what was carried out is written. What an earlier stream of the seat left unsynced is synced
    /// before a byte of this one is written. It waits for its reader, its writer, and the tables.
    pub fn serve<R: Read, W: Write>(&self, source: &mut Source<R>, writer: W) -> Served<W>
        ensures served { OnOk result.end (IsServed R.remaining W.contents source.old source.new (whole_sink writer) (whole_sink result.writer)
            (λ bytes text. HearsLines self.now.names (lines_of bytes) text)) }
        ensures read { result.end ≡ Err ServeFault.Read → IsUnread R.remaining W.contents source.old source.new (whole_sink writer) (whole_sink result.writer)
            (λ bytes text. HearsEnded self.now.names bytes text) }
        ensures write { result.end ≡ Err ServeFault.Write → IsUnwritten R.remaining W.contents source.old source.new (whole_sink writer) (failed_sink result.writer)
            (λ bytes text. HearsFront self.now.names bytes text) }
        ensures over { (at : OverAt) → result.end ≡ Err (ServeFault.Over at) →
            (IsUnsynced self.now.names at × IsUnwritten R.remaining W.contents source.old source.new (whole_sink writer) (failed_sink result.writer) (λ bytes text. HearsFront self.now.names bytes text))
            ⊎ IsRefused R.remaining W.contents source.old source.new (whole_sink writer) (whole_sink result.writer) (λ bytes text. StopsNext self.now.names bytes text at) }
        ensures memory { result.end ≡ Err ServeFault.Memory → (source.new ≡ source.old) × (result.writer ≡ writer) }
    {
        let Ok(reader) = LineReader::new(self.alloc()) else {
            return Served {
                writer,
                end: Err(ServeFault::Memory),
            };
        };
        let mut cutter = LineCutter::new();
        let mut sink = Sink::new(Synced {
            seat: self,
            peer: Peer::new(writer),
        });
        let served = serve_lines(
            self.alloc(),
            &mut Lines { reader },
            self,
            &mut cutter,
            source,
            &mut sink,
        );
        Served {
            end: self.end_of(served),
            writer: sink.into_inner().into_inner(),
        }
    }

    // How a stream ended.
    fn end_of(&self, served: Result<(), Stopped<OverAt>>) -> Result<(), ServeFault>
        ensures { EndsAs self.now.names served result }
    {
        match served {
            Ok(()) => Ok(()),
            Err(Stopped::Read) => Err(ServeFault::Read),
            Err(Stopped::Memory) => Err(ServeFault::Memory),
            Err(Stopped::Refused(at)) => Err(ServeFault::Over(at)),
            Err(Stopped::Write) => match self.over() {
                Some(at) => Err(ServeFault::Over(at)),
                None => Err(ServeFault::Write),
            },
        }
    }
}
