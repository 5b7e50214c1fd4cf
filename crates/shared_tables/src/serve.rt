//! One session's stream over tables behind locks.

ghost use Rattle.std.specs.Prelude.{◌≡◌, ◌<◌, ◌++◌, [], List, ℕ, Err, OnOk, Option, length};
ghost use Rattle.std.specs.Option.{option_to_list};
ghost use Rattle.std.specs.Io.KnownBytes.{Appends};
ghost use Rattle.table_engine.specs.Devices.{AppendsFront};
ghost use Rattle.table_engine.specs.Lines.{short, added};
ghost use Rattle.table_engine.specs.Outcomes.{IsRefused, IsServed, IsUnread, IsUntouched, IsUnwritten, Stops, failures_after_stop};
ghost use Rattle.table_engine.specs.Stream.{Breaks, Feeds, Meets, Passes, Starts, TellsAll, TellsLine};
ghost use Rattle.table_engine.specs.Whole.{lines_of};
ghost use Rattle.shared_tables.specs.Requests.{Asks, HearsSome, HearsUntil};
ghost use Rattle.shared_tables.specs.Serving.{HearsEnded, HearsFront, HearsLines, HearsText, RefusesNext, RefusesText};
ghost use Rattle.shared_tables.specs.declared.request.Request.{Request};

use crate::fault::{CallFault, ServeFault};
use crate::pass::Pass;
use crate::requests::Requests;
use crate::shared::{Gate, Shared};
use crate::waiting::{grow_ahead, make_room, write_out};
use memchr::memchr;
use std::io::{Read, Write};
use std::sync::Wait;
use table_engine::{LineCutter, PIECE, Sink, Source, Stopped};
use table_reply::Out;

impl<G: Gate> Shared<G> {
    /// Serves a session's stream to its end: each line that is a command is answered as `call` answers it, from the pass that
    /// the answer before it left, and any other line as `table_engine::serve_stream` answers it. Up to 4,096 bytes are read at
    /// a time, and what they are answered is written before more are read, in one write where it is at most 64 KiB and the
    /// writer takes it whole. The writer is not flushed.
    ///
    /// It ends where the reader tells its end. A fault is answered only where a read or a write failed in the call, as many reads
    /// were made as `ServeFault` says, or the pass does not fit. At `Read` all lines that were completed are answered, at `Write`
    /// and `Call` a front of the answers to what was carried out is written; after each of them the pass knows what was carried
    /// out, and can serve a new stream.
    ///
    /// It waits for its reader and its writer, and as `call` does.
    pub fn serve<R: Read, W: Write>(
        &self,
        rt: &impl Wait,
        pass: &mut Pass,
        source: &mut Source<R>,
        sink: &mut Sink<W>,
    ) -> Result<(), ServeFault>
        ensures served { OnOk result (IsServed R.remaining W.contents source.old source.new sink.old sink.new
            (λ bytes text. HearsLines self.now pass.old (lines_of bytes) text pass.new)) }
        ensures read { result ≡ Err ServeFault.Read → IsUnread R.remaining W.contents source.old source.new sink.old sink.new
            (λ bytes text. (begun : List ℕ) × HearsEnded self.now pass.old bytes begun text pass.new) }
        ensures write { result ≡ Err ServeFault.Write → IsUnwritten R.remaining W.contents source.old source.new sink.old sink.new
            (λ bytes text. HearsFront self.now pass.old bytes text pass.new) }
        ensures call { (why : CallFault) → result ≡ Err (ServeFault.Call why) → IsRefused R.remaining W.contents source.old source.new sink.old sink.new
            (λ bytes text. RefusesNext self.now pass.old bytes text pass.new why) }
        ensures memory { result ≡ Err ServeFault.Memory → (pass.new ≡ pass.old) × IsUntouched source.old source.new sink.old sink.new }
    {
        let Ok(mut out) = Out::new(self.alloc) else {
            return Err(ServeFault::Memory);
        };
        let Ok(mut requests) = Requests::new(self.alloc) else {
            return Err(ServeFault::Memory);
        };
        let mut cutter = LineCutter::new();
        match self.serve_pieces(rt, pass, &mut cutter, &mut requests, source, sink, &mut out) {
            Ok(()) => {}
            Err(Stopped::Read) => return Err(ServeFault::Read),
            Err(Stopped::Write) => return Err(ServeFault::Write),
            Err(Stopped::Memory) => return Err(ServeFault::Memory),
            Err(Stopped::Refused(why)) => return Err(ServeFault::Call(why)),
        }
        Ok(())
    }

    // Serves a stream from its first byte on to its end, or to a fault.
    fn serve_pieces<R: Read, W: Write>(
        &self,
        rt: &impl Wait,
        pass: &mut Pass,
        cutter: &mut LineCutter,
        requests: &mut Requests,
        source: &mut Source<R>,
        sink: &mut Sink<W>,
        out: &mut Out,
    ) -> Result<(), Stopped<CallFault>>
        requires empty { out.old.bytes ≡ [] }
        requires none { requests.old ≡ [] }
        ensures served { OnOk result (IsServed R.remaining W.contents source.old source.new sink.old sink.new
            (λ bytes text. TellsAll (HearsText self.now) pass.old cutter.old.unfinished bytes text pass.new)) }
        ensures read { result ≡ Err Stopped.Read → IsUnread R.remaining W.contents source.old source.new sink.old sink.new
            (λ bytes text. Starts (HearsText self.now) pass.old cutter.old.unfinished bytes text pass.new) }
        ensures write { result ≡ Err Stopped.Write → IsUnwritten R.remaining W.contents source.old source.new sink.old sink.new
            (λ bytes text. Breaks (HearsText self.now) pass.old cutter.old.unfinished bytes text pass.new) }
        ensures refused { (why : CallFault) → result ≡ Err (Stopped.Refused why) → IsRefused R.remaining W.contents source.old source.new sink.old sink.new
            (λ bytes text. Meets (HearsText self.now) (RefusesText self.now) pass.old cutter.old.unfinished bytes text pass.new why) }
        ensures memory { result ≡ Err Stopped.Memory → ⊥ }
    {
        let mut piece = [0u8; PIECE];
        for _ in 0..u32::MAX {
            let Ok(n) = source.read(&mut piece) else {
                return Err(Stopped::Read);
            };
            if n == 0 {
                return self.serve_end(rt, pass, cutter, requests, sink, out);
            }
            grow_ahead(self.alloc, n);
            match self.serve_piece(rt, pass, cutter, &piece[..n], requests, sink, out) {
                Ok(()) => {}
                Err(stopped) => return Err(stopped),
            }
        }
        Err(Stopped::Read)
    }

    // Answers the last line of a stream, which no newline ends, and writes the answer out.
    fn serve_end<W: Write>(
        &self,
        rt: &impl Wait,
        pass: &mut Pass,
        cutter: &mut LineCutter,
        requests: &mut Requests,
        sink: &mut Sink<W>,
        out: &mut Out,
    ) -> Result<(), Stopped<CallFault>>
        requires empty { out.old.bytes ≡ [] }
        requires none { requests.old ≡ [] }
        ensures served { OnOk result ((text : List ℕ) × TellsLine (HearsText self.now) pass.old cutter.old.unfinished text pass.new
            × Appends (W.contents sink.old.inner) (W.contents sink.new.inner) text) }
        ensures stopped { Stops result
            ((told : List ℕ) × Breaks (HearsText self.now) pass.old cutter.old.unfinished [] told pass.new × AppendsFront (W.contents sink.old.inner) (W.contents sink.new.inner) told)
            (λ why. (told : List ℕ) × Meets (HearsText self.now) (RefusesText self.now) pass.old cutter.old.unfinished [] told pass.new why × AppendsFront (W.contents sink.old.inner) (W.contents sink.new.inner) told) }
        ensures failures { sink.new.failures ≡ failures_after_stop result sink.old.failures }
    {
        requests.end_line(cutter);
        match self.answer_all(rt, pass, requests, sink, out) {
            Ok(()) => {}
            Err(stopped) => return Err(stopped),
        }
        write_out(self.alloc, sink, out)?;
        Ok(())
    }

    // Takes the bytes of a piece, answers the lines that they end, and writes the answers out.
    fn serve_piece<W: Write>(
        &self,
        rt: &impl Wait,
        pass: &mut Pass,
        cutter: &mut LineCutter,
        piece: &[u8],
        requests: &mut Requests,
        sink: &mut Sink<W>,
        out: &mut Out,
    ) -> Result<(), Stopped<CallFault>>
        requires empty { out.old.bytes ≡ [] }
        requires none { requests.old ≡ [] }
        ensures served { OnOk result ((told : List ℕ) × Feeds (HearsText self.now) pass.old cutter.old.unfinished piece.now told pass.new cutter.new.unfinished
            × Appends (W.contents sink.old.inner) (W.contents sink.new.inner) told) }
        ensures empty { OnOk result (out.new.bytes ≡ []) }
        ensures none { OnOk result (requests.new ≡ []) }
        ensures stopped { Stops result
            ((told : List ℕ) × Breaks (HearsText self.now) pass.old cutter.old.unfinished piece.now told pass.new × AppendsFront (W.contents sink.old.inner) (W.contents sink.new.inner) told)
            (λ why. (told : List ℕ) × Meets (HearsText self.now) (RefusesText self.now) pass.old cutter.old.unfinished piece.now told pass.new why × AppendsFront (W.contents sink.old.inner) (W.contents sink.new.inner) told) }
        ensures failures { sink.new.failures ≡ failures_after_stop result sink.old.failures }
    {
        let mut rest = piece;
        while let Some(length) = memchr(b'\n', rest) {
            let (line, after) = rest.split_at(length);
            match self.serve_line(rt, pass, cutter, line, requests, sink, out) {
                Ok(()) => {}
                Err(stopped) => return Err(stopped),
            }
            let (_, behind) = after.split_at(1);
            rest = behind;
        }
        cutter.extend(rest);
        match self.answer_all(rt, pass, requests, sink, out) {
            Ok(()) => {}
            Err(stopped) => return Err(stopped),
        }
        write_out(self.alloc, sink, out)?;
        Ok(())
    }

    // Takes bytes and the newline after them, and reads the line that they end. It waits to be carried out, until as many wait as
    // there may be.
    fn serve_line<W: Write>(
        &self,
        rt: &impl Wait,
        pass: &mut Pass,
        cutter: &mut LineCutter,
        line: &[u8],
        requests: &mut Requests,
        sink: &mut Sink<W>,
        out: &mut Out,
    ) -> Result<(), Stopped<CallFault>>
        requires { length requests.old < 128 }
        ensures told { OnOk result ((asked : Option Request) × Asks (added line.now cutter.old.unfinished) asked
            × (text : List ℕ) × HearsSome self.now pass.old (requests.old ++ option_to_list asked) requests.new text pass.new × Passes (W.contents sink.old.inner) (W.contents sink.new.inner) out.old.bytes text out.new.bytes) }
        ensures ended { OnOk result (cutter.new.unfinished ≡ short []) }
        ensures few { OnOk result (length requests.new < 128) }
        ensures stopped { Stops result
            ((asked : Option Request) × Asks (added line.now cutter.old.unfinished) asked × (left : List Request) × (text : List ℕ) × HearsSome self.now pass.old (requests.old ++ option_to_list asked) left text pass.new × AppendsFront (W.contents sink.old.inner) (W.contents sink.new.inner) (out.old.bytes ++ text))
            (λ why. (asked : Option Request) × Asks (added line.now cutter.old.unfinished) asked × (text : List ℕ) × HearsUntil self.now pass.old (requests.old ++ option_to_list asked) text pass.new why × AppendsFront (W.contents sink.old.inner) (W.contents sink.new.inner) (out.old.bytes ++ text)) }
        ensures failures { sink.new.failures ≡ failures_after_stop result sink.old.failures }
    {
        requests.take_line(cutter, line);
        if requests.is_full() {
            return self.answer_all(rt, pass, requests, sink, out);
        }
        Ok(())
    }

    // Answers what waits, in its order. The answers are written out where they are many or leave no room for a further one.
    fn answer_all<W: Write>(
        &self,
        rt: &impl Wait,
        pass: &mut Pass,
        requests: &mut Requests,
        sink: &mut Sink<W>,
        out: &mut Out,
    ) -> Result<(), Stopped<CallFault>>
        ensures told { OnOk result ((text : List ℕ) × HearsSome self.now pass.old requests.old requests.new text pass.new × Passes (W.contents sink.old.inner) (W.contents sink.new.inner) out.old.bytes text out.new.bytes) }
        ensures none { OnOk result (requests.new ≡ []) }
        ensures stopped { Stops result
            ((left : List Request) × (text : List ℕ) × HearsSome self.now pass.old requests.old left text pass.new × AppendsFront (W.contents sink.old.inner) (W.contents sink.new.inner) (out.old.bytes ++ text))
            (λ why. (text : List ℕ) × HearsUntil self.now pass.old requests.old text pass.new why × AppendsFront (W.contents sink.old.inner) (W.contents sink.new.inner) (out.old.bytes ++ text)) }
        ensures failures { sink.new.failures ≡ failures_after_stop result sink.old.failures }
    {
        while let Some(request) = requests.pop() {
            make_room(self.alloc, sink, out)?;
            match self.answer_on(rt, pass, request, requests, out) {
                Ok(()) => {}
                Err(why) => return Err(Stopped::Refused(why)),
            }
        }
        Ok(())
    }
}
