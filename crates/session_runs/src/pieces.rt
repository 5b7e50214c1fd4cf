//! Pieces of the sessions' streams, and what the sessions are answered.
ghost use Rattle.std.specs.Prelude.{◌≡◌, ◌<◌, IfSome, length};

use std::alloc::{AllocError, Global};
use std::marker::Model;
use table_engine::{Engine, Event, run_events};
use table_reply::Out;
use table_schema::Schema;

/// The sessions of an engine, the piece that is read so far, and what is to be printed.
#[derive(Drop)]
pub struct Sessions {
    alloc: Global,
    engine: Engine,
    piece: Vec<u8>,
    report: Vec<u8>,
}

impl Model for Sessions {
    ghost use Rattle.std.specs.Prelude.{◌≡◌, length};
    ghost use Rattle.table_engine.specs.Run.{Machine};

    ghost Value = { Machine };

    ghost view = { λ s. s.engine };

    ghost invariant = { λ s. length s.engine.unfinished ≡ 4 };
}

// The session that a digit says.
fn session_of(digit: u8) -> Option<usize>
    ensures { IfSome result (λ session. session < 4) }
{
    match digit {
        b'0' => Some(0),
        b'1' => Some(1),
        b'2' => Some(2),
        b'3' => Some(3),
        _ => None,
    }
}

fn new_out(alloc: Global) -> Result<Out, AllocError> {
    Out::new(alloc).map_err(|_| AllocError)
}

// A buffer for each session.
fn four_outs(alloc: Global) -> Result<[Out; 4], AllocError> {
    Ok([
        new_out(alloc)?,
        new_out(alloc)?,
        new_out(alloc)?,
        new_out(alloc)?,
    ])
}

impl Sessions {
    /// Four sessions on empty tables.
    pub fn new(alloc: Global, schema: &Schema) -> Result<Sessions, AllocError> {
        Ok(Sessions {
            alloc,
            engine: Engine::new(alloc, schema, 4)?,
            piece: Vec::new(alloc),
            report: Vec::new(alloc),
        })
    }

    /// What is to be printed.
    pub fn report(&self) -> &[u8] {
        &self.report
    }

    /// Leaves nothing to be printed.
    pub fn clear(&mut self) {
        self.report.clear();
    }

    /// Takes a line of the input.
    pub fn take(&mut self, line: &[u8]) -> Result<(), AllocError> {
        match line {
            [_, b'+', bytes @ ..] => {
                self.piece.extend_from_slice(bytes)?;
                self.piece.push(b'\n')?;
                Ok(())
            }
            [digit, b'.', bytes @ ..] => {
                self.piece.extend_from_slice(bytes)?;
                self.feed(*digit)
            }
            [digit, b'!'] => self.finish(*digit),
            _ => self.report.extend_from_slice(b"no piece\n"),
        }
    }

    // Sends the piece.
    fn feed(&mut self, digit: u8) -> Result<(), AllocError> {
        let Some(session) = session_of(digit) else {
            self.piece.clear();
            return self.report.extend_from_slice(b"no piece\n");
        };
        let mut outs = four_outs(self.alloc)?;
        let events = [Event::Piece {
            session,
            bytes: &self.piece,
        }];
        run_events(&mut self.engine, &events, &mut outs).map_err(|_| AllocError)?;
        self.piece.clear();
        self.tell(digit, &outs)
    }

    // Ends the session's stream.
    fn finish(&mut self, digit: u8) -> Result<(), AllocError> {
        let Some(session) = session_of(digit) else {
            return self.report.extend_from_slice(b"no piece\n");
        };
        let mut outs = four_outs(self.alloc)?;
        let events = [Event::End { session }];
        run_events(&mut self.engine, &events, &mut outs).map_err(|_| AllocError)?;
        self.tell(digit, &outs)
    }

    // Adds a session and what it is answered, and each other session that is answered something.
    fn tell(&mut self, digit: u8, outs: &[Out]) -> Result<(), AllocError> {
        for (each, out) in b"0123".iter().zip(outs) {
            if *each == digit || !out.bytes().is_empty() {
                self.report.push(*each)?;
                self.report.push(b'\n')?;
                self.report.extend_from_slice(out.bytes())?;
            }
        }
        Ok(())
    }
}
