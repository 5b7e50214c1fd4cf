//! Events of several sessions, one after another.

ghost use Rattle.std.specs.Prelude.{◌≡◌, ◌<◌, List, ℕ, All, IfErr, length, slice_get};
ghost use Rattle.table_engine.specs.Events.{carried_out, session_in, signals_of, taken_of, waiting};
ghost use Rattle.table_engine.specs.Run.{KeepsEach, Run, Tells, Waits, room_at};

use crate::engine::Engine;
use crate::event::{Event, Stop};
use table_reply::Out;

/// Carries out the events one after another, and appends to each session's buffer what the session is answered:
/// however the streams are cut and interleaved, each line as one machine would answer the lines in the order of their
/// completion, or with the memory line and nothing changed. After an `Err` the engine stands where it says. No buffer
/// gives memory back.
pub fn run_events(engine: &mut Engine, events: &[Event], outs: &mut [Out]) -> Result<(), Stop>
    requires one_out_each { length outs.old ≡ length engine.old.unfinished }
    requires sessions { All (λ e. session_in e < length outs.old) events.now }
    ensures run { (told : List (List ℕ)) × Run engine.old (carried_out result events.now) told engine.new
        × Tells outs.old (carried_out result events.now) told outs.new }
    ensures waits { IfErr result (λ stop. Waits engine.new (room_at outs.new) (waiting stop events.now)) }
    ensures kept { KeepsEach outs.old outs.new }
    ensures sessions { length engine.new.unfinished ≡ length engine.old.unfinished }
{
    let mut count = 0;
    for event in events {
        match take_event(engine, event, outs) {
            Ok(()) => count += 1,
            Err(stop) => {
                return Err(Stop {
                    event: count,
                    taken: stop.taken,
                });
            }
        }
    }
    Ok(())
}

// Carries out one event. At an `Err` as many of its bytes were taken as it says.
fn take_event(engine: &mut Engine, event: &Event, outs: &mut [Out]) -> Result<(), Stop>
    requires session { session_in event.now < length outs.old }
    requires one_out_each { length outs.old ≡ length engine.old.unfinished }
    ensures run { (told : List (List ℕ)) × Run engine.old (taken_of result (signals_of event.now)) told engine.new
        × Tells outs.old (taken_of result (signals_of event.now)) told outs.new }
    ensures stopped { IfErr result (λ stop. stop.taken < length (signals_of event.now)) }
    ensures waits { IfErr result (λ stop. Waits engine.new (room_at outs.new) (slice_get (signals_of event.now) stop.taken)) }
    ensures kept { KeepsEach outs.old outs.new }
    ensures sessions { length engine.new.unfinished ≡ length engine.old.unfinished }
{
    match *event {
        Event::Piece { session, bytes } => engine.feed(session, bytes, &mut outs[session]),
        Event::End { session } => engine.finish(session, &mut outs[session]),
    }
}
