//! A stream of lines, over a reader and a writer.

ghost use Rattle.std.specs.Prelude.{◌≡◌, [], ⊤, List, ℕ, Err, OnErr, OnOk};
ghost use Rattle.std.specs.Io.KnownBytes.{Appends};
ghost use Rattle.table_engine.specs.Devices.{AppendsFront};
ghost use Rattle.table_engine.specs.Lines.{short, added};
ghost use Rattle.table_engine.specs.Outcomes.{IsRefused, IsServed, IsUnread, IsUntouched, IsUnwritten, Stops, failures_after_stop};
ghost use Rattle.table_engine.specs.Stream.{Breaks, Feeds, Meets, Passes, RefusesLine, Starts, TellsAll, TellsLine};

use crate::ahead::grow_ahead;
use crate::answers::{Answers, end_line, take_line};
use crate::cutter::LineCutter;
use crate::sink::Sink;
use crate::source::Source;
use crate::stopped::Stopped;
use crate::stream::PIECE;
use crate::waiting::{make_room, write_out};
use memchr::memchr;
use std::alloc::Global;
use std::io::{Read, Write};
use table_reply::{Out, Told};

/// Serves a stream to its end, to whatever answers its lines. Up to 4,096 bytes are read at a time, and what they are answered
/// is written before more are read, in one write where it is at most 64 KiB and the writer takes it whole. The writer is not
/// flushed.
///
/// It ends where the reader tells its end. A fault is answered only where a read or a write failed in the call, as many reads
/// were made as `Stopped` says, or a line was refused. At `Read` all lines that were completed are answered, at `Write` and
/// `Refused` a front of the answers to what was carried out is written. After each of them nothing is left of a further line.
pub fn serve_lines<S, T: Answers<S>, R: Read, W: Write>(
    alloc: Global,
    answers: &mut T,
    seat: &S,
    cutter: &mut LineCutter,
    source: &mut Source<R>,
    sink: &mut Sink<W>,
) -> Result<(), Stopped<T::Refusal>>
    ensures served { OnOk result (IsServed R.remaining W.contents source.old source.new sink.old sink.new
        (λ bytes text. TellsAll (T.tells seat.now) answers.old cutter.old.unfinished bytes text answers.new × (cutter.new.unfinished ≡ short []))) }
    ensures read { result ≡ Err Stopped.Read → IsUnread R.remaining W.contents source.old source.new sink.old sink.new
        (λ bytes text. Starts (T.tells seat.now) answers.old cutter.old.unfinished bytes text answers.new × (cutter.new.unfinished ≡ short [])) }
    ensures write { result ≡ Err Stopped.Write → IsUnwritten R.remaining W.contents source.old source.new sink.old sink.new
        (λ bytes text. Breaks (T.tells seat.now) answers.old cutter.old.unfinished bytes text answers.new × (cutter.new.unfinished ≡ short [])) }
    ensures refused { (why : T.Refusal) → result ≡ Err (Stopped.Refused why) → IsRefused R.remaining W.contents source.old source.new sink.old sink.new
        (λ bytes text. Meets (T.tells seat.now) (T.refuses seat.now) answers.old cutter.old.unfinished bytes text answers.new why × (cutter.new.unfinished ≡ short [])) }
    ensures memory { result ≡ Err Stopped.Memory → (answers.new ≡ answers.old) × (cutter.new ≡ cutter.old) × IsUntouched source.old source.new sink.old sink.new }
{
    let Ok(mut out) = Out::new(alloc) else {
        return Err(Stopped::Memory);
    };
    let served = serve_pieces(alloc, answers, seat, cutter, source, sink, &mut out);
    cutter.forget();
    served
}

// Serves a stream from its first byte on to its end, or to a fault.
fn serve_pieces<S, T: Answers<S>, R: Read, W: Write>(
    alloc: Global,
    answers: &mut T,
    seat: &S,
    cutter: &mut LineCutter,
    source: &mut Source<R>,
    sink: &mut Sink<W>,
    out: &mut Out,
) -> Result<(), Stopped<T::Refusal>>
    requires { out.old.bytes ≡ [] }
    ensures served { OnOk result (IsServed R.remaining W.contents source.old source.new sink.old sink.new
        (λ bytes text. TellsAll (T.tells seat.now) answers.old cutter.old.unfinished bytes text answers.new)) }
    ensures read { result ≡ Err Stopped.Read → IsUnread R.remaining W.contents source.old source.new sink.old sink.new
        (λ bytes text. Starts (T.tells seat.now) answers.old cutter.old.unfinished bytes text answers.new) }
    ensures write { result ≡ Err Stopped.Write → IsUnwritten R.remaining W.contents source.old source.new sink.old sink.new
        (λ bytes text. Breaks (T.tells seat.now) answers.old cutter.old.unfinished bytes text answers.new) }
    ensures refused { (why : T.Refusal) → result ≡ Err (Stopped.Refused why) → IsRefused R.remaining W.contents source.old source.new sink.old sink.new
        (λ bytes text. Meets (T.tells seat.now) (T.refuses seat.now) answers.old cutter.old.unfinished bytes text answers.new why) }
    ensures memory { result ≡ Err Stopped.Memory → ⊥ }
{
    let mut piece = [0u8; PIECE];
    for _ in 0..u32::MAX {
        let Ok(n) = source.read(&mut piece) else {
            return Err(Stopped::Read);
        };
        if n == 0 {
            return serve_end(answers, seat, cutter, sink, out);
        }
        grow_ahead(alloc, n);
        match serve_piece(alloc, answers, seat, cutter, &piece[..n], sink, out) {
            Ok(()) => {}
            Err(stopped) => return Err(stopped),
        }
    }
    Err(Stopped::Read)
}

// Answers the last line of a stream, which no newline ends, into the emptied buffer, and writes the answer out.
fn serve_end<S, T: Answers<S>, W: Write>(
    answers: &mut T,
    seat: &S,
    cutter: &mut LineCutter,
    sink: &mut Sink<W>,
    out: &mut Out,
) -> Result<(), Stopped<T::Refusal>>
    ensures served { OnOk result ((text : List ℕ) × TellsLine (T.tells seat.now) answers.old cutter.old.unfinished text answers.new
        × Appends (W.contents sink.old.inner) (W.contents sink.new.inner) text) }
    ensures stopped { Stops result
        ((text : List ℕ) × TellsLine (T.tells seat.now) answers.old cutter.old.unfinished text answers.new × AppendsFront (W.contents sink.old.inner) (W.contents sink.new.inner) text)
        (λ why. (answers.new ≡ answers.old) × RefusesLine (T.refuses seat.now) answers.old cutter.old.unfinished why × (sink.new ≡ sink.old)) }
    ensures failures { sink.new.failures ≡ failures_after_stop result sink.old.failures }
{
    let Ok(ready) = out.emptied();
    let Told { what, out } = end_line(answers, seat, cutter, ready);
    if let Err(why) = what {
        return Err(Stopped::Refused(why));
    }
    sink.write_all(out.bytes())?;
    Ok(())
}

// Takes the bytes of a piece, line by line, and writes out the answers to the lines that they end.
fn serve_piece<S, T: Answers<S>, W: Write>(
    alloc: Global,
    answers: &mut T,
    seat: &S,
    cutter: &mut LineCutter,
    piece: &[u8],
    sink: &mut Sink<W>,
    out: &mut Out,
) -> Result<(), Stopped<T::Refusal>>
    requires { out.old.bytes ≡ [] }
    ensures served { OnOk result ((told : List ℕ) × Feeds (T.tells seat.now) answers.old cutter.old.unfinished piece.now told answers.new cutter.new.unfinished
        × Appends (W.contents sink.old.inner) (W.contents sink.new.inner) told) }
    ensures empty { OnOk result (out.new.bytes ≡ []) }
    ensures stopped { Stops result
        ((told : List ℕ) × Breaks (T.tells seat.now) answers.old cutter.old.unfinished piece.now told answers.new × AppendsFront (W.contents sink.old.inner) (W.contents sink.new.inner) told)
        (λ why. (told : List ℕ) × Meets (T.tells seat.now) (T.refuses seat.now) answers.old cutter.old.unfinished piece.now told answers.new why × AppendsFront (W.contents sink.old.inner) (W.contents sink.new.inner) told) }
    ensures failures { sink.new.failures ≡ failures_after_stop result sink.old.failures }
{
    let mut rest = piece;
    while let Some(length) = memchr(b'\n', rest) {
        let (line, after) = rest.split_at(length);
        match serve_line(alloc, answers, seat, cutter, line, sink, out) {
            Ok(()) => {}
            Err(stopped) => return Err(stopped),
        }
        let (_, behind) = after.split_at(1);
        rest = behind;
    }
    cutter.extend(rest);
    write_out(alloc, sink, out)?;
    Ok(())
}

// Takes bytes and the newline after them. Before the line that they end is answered, the answers that wait are written out
// where they are many or leave no room for a further one.
fn serve_line<S, T: Answers<S>, W: Write>(
    alloc: Global,
    answers: &mut T,
    seat: &S,
    cutter: &mut LineCutter,
    line: &[u8],
    sink: &mut Sink<W>,
    out: &mut Out,
) -> Result<(), Stopped<T::Refusal>>
    ensures told { OnOk result ((told : List ℕ) × TellsLine (T.tells seat.now) answers.old (added line.now cutter.old.unfinished) told answers.new
        × Passes (W.contents sink.old.inner) (W.contents sink.new.inner) out.old.bytes told out.new.bytes) }
    ensures ended { OnOk result (cutter.new.unfinished ≡ short []) }
    ensures unchanged { OnErr result (answers.new ≡ answers.old) }
    ensures front { OnErr result (AppendsFront (W.contents sink.old.inner) (W.contents sink.new.inner) out.old.bytes) }
    ensures stopped { Stops result ⊤ (λ why. RefusesLine (T.refuses seat.now) answers.old (added line.now cutter.old.unfinished) why) }
    ensures failures { sink.new.failures ≡ failures_after_stop result sink.old.failures }
{
    let ready = make_room(out, alloc, sink)?;
    if let Err(why) = take_line(answers, seat, cutter, line, ready).end() {
        return Err(Stopped::Refused(why));
    }
    Ok(())
}
