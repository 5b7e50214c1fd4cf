//! One session's stream.

ghost use Rattle.std.specs.Prelude.{◌≡◌, ◌≤◌, ◌<◌, ◌++◌, List, ℕ, IsTrue, IsOk, OnOk, OnErr, IfErr, length, slice_index_or};
ghost use Rattle.table_reply.specs.Buffer.{Keeps};
ghost use Rattle.table_engine.specs.Events.{taken_of};
ghost use Rattle.table_engine.specs.Lines.{added, has_answer};
ghost use Rattle.table_engine.specs.Run.{TakesLine};
ghost use Rattle.table_engine.specs.Stream.{Feeds};
ghost use Rattle.table_engine.specs.Tables.{AnswersText};

use crate::answers;
use crate::answers::end_line;
use crate::carry::Tables;
use crate::cutter::LineCutter;
use crate::event::Stop;
use memchr::memchr;
use table_reply::{Out, OutOfRoom, READY_ROOM};

// Takes bytes of a session and the newline after them, and answers the line that they complete. Where there is no room for an
// answer, the newline is not taken.
fn take_line(
    tables: &mut Tables,
    cutter: &mut LineCutter,
    line: &[u8],
    out: &mut Out,
) -> Result<(), OutOfRoom>
    ensures ok { OnOk result (TakesLine tables.old (added line.now cutter.old.unfinished) out.old.bytes out.new.bytes tables.new cutter.new.unfinished) }
    ensures err { OnErr result ((tables.new ≡ tables.old) × (cutter.new.unfinished ≡ added line.now cutter.old.unfinished) × (out.new ≡ out.old)) }
    ensures waits { OnErr result (IsTrue (has_answer (added line.now cutter.old.unfinished)) × (out.old.room < READY_ROOM)) }
    ensures kept { Keeps out.old out.new }
{
    let Ok(ready) = out.ready() else {
        cutter.extend(line);
        return take_end(tables, cutter, out);
    };
    match answers::take_line(tables, &(), cutter, line, ready).end() {
        Ok(()) => Ok(()),
    }
}

// Takes what ends the line so far of a session, and answers the line. Where there is no room for an answer, it is not taken.
pub(crate) fn take_end(
    tables: &mut Tables,
    cutter: &mut LineCutter,
    out: &mut Out,
) -> Result<(), OutOfRoom>
    ensures ok { OnOk result (TakesLine tables.old cutter.old.unfinished out.old.bytes out.new.bytes tables.new cutter.new.unfinished) }
    ensures err { OnErr result ((tables.new ≡ tables.old) × (cutter.new.unfinished ≡ cutter.old.unfinished) × (out.new ≡ out.old)) }
    ensures waits { OnErr result (IsTrue (has_answer cutter.old.unfinished) × (out.old.room < READY_ROOM)) }
    ensures ready { READY_ROOM ≤ out.old.room → IsOk result }
    ensures kept { Keeps out.old out.new }
{
    if !cutter.has_answer() {
        cutter.forget();
        return Ok(());
    }
    let ready = out.ready()?;
    match end_line(tables, &(), cutter, ready).end() {
        Ok(()) => Ok(()),
    }
}

// Takes the bytes of a piece, line by line. At an `Err` as many bytes were taken as it says.
pub(crate) fn take_piece(
    tables: &mut Tables,
    cutter: &mut LineCutter,
    piece: &[u8],
    out: &mut Out,
) -> Result<(), Stop>
    ensures fed { (text : List ℕ) × Feeds AnswersText tables.old cutter.old.unfinished (taken_of result piece.now) text tables.new cutter.new.unfinished
        × (out.new.bytes ≡ out.old.bytes ++ text) }
    ensures stopped { IfErr result (λ stop. (stop.event ≡ 0) × (stop.taken < length piece.now)) }
    ensures waits { IfErr result (λ stop. (slice_index_or piece.now stop.taken 0 ≡ 10) × IsTrue (has_answer cutter.new.unfinished) × (out.new.room < READY_ROOM)) }
    ensures progress { READY_ROOM ≤ out.old.room → IfErr result (λ stop. 0 < stop.taken) }
    ensures kept { Keeps out.old out.new }
{
    let mut rest = piece;
    while let Some(length) = memchr(b'\n', rest) {
        let (line, after) = rest.split_at(length);
        match take_line(tables, cutter, line, out) {
            Ok(()) => {}
            Err(_) => return Err(Stop {
                event: 0,
                taken: piece.len() - rest.len() + length,
            }),
        }
        let (_, behind) = after.split_at(1);
        rest = behind;
    }
    cutter.extend(rest);
    Ok(())
}
