//! One thread of a service.
ghost use Rattle.std.specs.Prelude.{◌≡◌};
ghost use Rattle.table_sockets.specs.Serving.{GoesOn, LeavesPass, Leaves};

use crate::accepts::Accepts;
use crate::end::End;
use crate::halves::{Reading, Writing};
use shared_tables::{Gate, Pass, ServeFault, Shared};
use std::io::{Read, Write};
use std::snapshot::Snapshot;
use std::sync::Wait;
use std::sync::atomic::{AtomicUsize, Ordering};
use std::thread::Promise;
use table_engine::{Sink, Source};

/// What the threads of a service share.
pub(crate) struct Work<L: Accepts, G: Gate> {
    pub(crate) listening: L,
    pub(crate) shared: Shared<G>,
    /// How many connections each thread serves.
    pub(crate) each: u32,
    /// The number of the last thread that could not be started, counted from 1, or 0.
    pub(crate) refused: AtomicUsize,
}

/// What a thread leaves: its pass, and how it ended.
#[derive(Drop)]
pub(crate) struct Left {
    pub(crate) pass: Pass,
    pub(crate) end: End,
}

/// What is known of what a thread leaves: what it accepts from, the tables and the pass that it began with, and how many
/// connections it was to serve.
#[derive(Drop)]
pub(crate) struct Promised<L: Accepts, G: Gate> {
    pub(crate) listening: Snapshot<L>,
    pub(crate) shared: Snapshot<Shared<G>>,
    pub(crate) pass: Snapshot<Pass>,
    pub(crate) each: u32,
}

impl<L: Accepts, G: Gate> Promise<Left> for Promised<L, G> {
    ghost use Rattle.table_sockets.specs.Serving.{Leaves};

    ghost kept_by = { λ p left. Leaves (L.known p.listening.value) p.shared.value p.each p.pass.value left.pass left.end };
}

impl<L: Accepts, G: Gate> Work<L, G> {
    /// What the thread of this number leaves. One that could not be started leaves its pass as it is.
    pub(crate) fn leave(&self, rt: &impl Wait, number: usize, pass: Pass) -> Left
        ensures { Leaves (L.known self.now.listening) self.now.shared self.now.each pass result.pass result.end }
    {
        let turn = self.listening.begin();
        if self.refused.load(Ordering::SeqCst) == number {
            return Left {
                pass,
                end: End::Memory,
            };
        }
        self.serve_each(rt, turn, pass)
    }

    // Accepts so many connections and serves them.
    fn serve_each(&self, rt: &impl Wait, mut turn: L::Turn, mut pass: Pass) -> Left
        requires { (L.known self.now.listening).begun turn }
        ensures { Leaves (L.known self.now.listening) self.now.shared self.now.each pass result.pass result.end }
    {
        for _ in 0..self.each {
            if let Some(end) = self.serve_next(rt, &mut turn, &mut pass) {
                return Left { pass, end };
            }
        }
        Left {
            pass,
            end: End::Fine,
        }
    }

    // Accepts a connection, serves it, and says how that ends the thread, if it does.
    fn serve_next(&self, rt: &impl Wait, turn: &mut L::Turn, pass: &mut Pass) -> Option<End>
        ensures { GoesOn (L.known self.now.listening) self.now.shared
            (record { turn = turn.old; pass = pass.old }) (record { turn = turn.new; pass = pass.new }) result }
    {
        let Ok((connection, input, output)) = self.listening.accept(turn) else {
            return Some(End::Listen);
        };
        let reader = Reading {
            listening: &self.listening,
            connection: &connection,
            input,
        };
        let writer = Writing {
            listening: &self.listening,
            connection: &connection,
            output,
        };
        End::after(serve(rt, &self.shared, pass, reader, writer))
    }
}

// Serves a connection to its end.
fn serve<G: Gate, I: Read + Drop, O: Write + Drop>(
    rt: &impl Wait,
    shared: &Shared<G>,
    pass: &mut Pass,
    reader: I,
    writer: O,
) -> Result<(), ServeFault>
    ensures { LeavesPass shared.now (I.remaining reader) (O.contents writer) pass.old pass.new result }
{
    shared.serve(rt, pass, &mut Source::new(reader), &mut Sink::new(writer))
}
