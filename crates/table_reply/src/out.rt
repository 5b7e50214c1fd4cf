//! A buffer for answer lines.

ghost use Rattle.std.specs.Prelude.{◌≡◌, ◌+◌, ◌≤◌, ◌++◌, [], IfOk, length, take};
ghost use Rattle.table_reply.specs.Buffer.{Keeps, MakesRoom, AddsWhole, texts};

use crate::ready::Ready;
use json::Writer;
use std::alloc::Global;
use std::convert::Infallible;
use std::marker::Model;
use thiserror::Error;

/// The room, in bytes, that each answer to a write, and each fault, can count on.
pub const READY_ROOM: usize = 512;

/// The room, in bytes, of a line with records before it grows.
const LINE_ROOM: usize = 512;

/// A growth of the buffer was refused.
#[derive(Clone, Copy, Debug, PartialEq, Eq, Error)]
#[error("out of memory")]
pub struct OutOfRoom;

/// Answer lines that wait to be written out. Once it is empty, it has room for an answer.
#[derive(Debug, Drop)]
pub struct Out {
    buffer: Vec<u8>,
    alloc: Global,
}

impl Model for Out {
    ghost use Rattle.table_reply.specs.Buffer.{Buffer};
    ghost use Rattle.table_reply.specs.declared.out.TheConstants.{READY_ROOM};
    ghost use Rattle.std.specs.Prelude.{◌-◌, ◌≤◌, vec_capacity, vec_len};

    ghost Value = { Buffer };

    ghost view = { λ o. record { bytes = o.buffer.items; room = vec_capacity o.buffer - vec_len o.buffer } };

    ghost invariant = { λ o. READY_ROOM ≤ vec_capacity o.buffer };
}

impl Out {
    ghost use Rattle.std.specs.Borrow.{sem};
    ghost use Rattle.table_reply.specs.Ready.{IsMadeReady, Rests, RestsUnlessReady};

    /// An empty buffer with room for an answer. O(1).
    pub fn new(alloc: Global) -> Result<Out, OutOfRoom>
        ensures { IfOk result (λ out. (out.bytes ≡ []) × (READY_ROOM ≤ out.room)) }
    {
        let buffer = Vec::with_capacity(alloc, READY_ROOM).map_err(|_| OutOfRoom)?;
        Ok(Out { buffer, alloc })
    }

    // A line of its own, for what is printed token by token. O(1).
    pub(crate) fn new_line(&self) -> Result<Writer, OutOfRoom>
        ensures { IfOk result (λ line. (line.before ≡ []) × (line.tokens ≡ [])) }
    {
        let text = Vec::with_capacity(self.alloc, LINE_ROOM).map_err(|_| OutOfRoom)?;
        Ok(Writer::new(text))
    }

    /// What waits to be written out. O(1).
    pub fn bytes(&self) -> &[u8]
        ensures bytes { result.now ≡ self.now.bytes }
        ensures wide { READY_ROOM ≤ self.now.room + length self.now.bytes }
    {
        &self.buffer
    }

    /// Empties the buffer, and keeps its memory. O(length).
    pub fn clear(&mut self)
        ensures bytes { self.new.bytes ≡ [] }
        ensures room { self.old.room + length self.old.bytes ≡ self.new.room }
        ensures wide { READY_ROOM ≤ self.new.room }
    {
        self.buffer.clear();
    }

    /// The buffer with room for an answer. Memory is refused only where something waits and there is less room: then all
    /// is as before. O(length), and O(1) where there is room.
    pub fn ready(&mut self) -> Result<Ready<'_>, OutOfRoom>
        ensures* rests { sem 𝓛 (RestsUnlessReady self.entry result) }
        ensures same { IfOk result (λ ready. ready.out.ghost_name ≡ self.entry.ghost_name) }
        ensures ready { IfOk result (λ ready. IsMadeReady self.old ready.out.now) }
    {
        let _ = &self.buffer;
        self.reserve(READY_ROOM)?;
        Ok(Ready { out: self })
    }

    /// The buffer, empty, with room for an answer. It can't be refused. O(length).
    pub fn emptied(&mut self) -> Result<Ready<'_>, Infallible>
        ensures* rests { sem 𝓛 (Rests self.entry result) }
        ensures same { IfOk result (λ ready. ready.out.ghost_name ≡ self.entry.ghost_name) }
        ensures empty { IfOk result (λ ready. ready.out.now.bytes ≡ []) }
        ensures kept { IfOk result (λ ready. Keeps self.old ready.out.now) }
    {
        self.clear();
        Ok(Ready { out: self })
    }

    /// Sees to it that so many further bytes need no memory. O(length), and O(1) where there is room.
    pub fn reserve(&mut self, bytes: usize) -> Result<(), OutOfRoom>
        ensures bytes { self.new.bytes ≡ self.old.bytes }
        ensures room { MakesRoom result self.old.room self.new.room bytes }
    {
        self.buffer.reserve(bytes).map_err(|_| OutOfRoom)
    }

    /// Appends bytes that fit the room. O(length of the piece).
    pub fn push(&mut self, piece: &[u8])
        requires { length piece.now ≤ self.old.room }
        ensures bytes { self.new.bytes ≡ self.old.bytes ++ piece.now }
        ensures room { self.old.room ≤ self.new.room + length piece.now }
    {
        self.buffer.extend_from_slice(piece).unwrap();
    }

    /// Appends bytes, and takes memory only where the room is too small. At an `Err` nothing is appended. Amortized
    /// O(length of the piece).
    pub fn try_push(&mut self, piece: &[u8]) -> Result<(), OutOfRoom>
        ensures { AddsWhole result self.old self.new piece.now }
    {
        self.buffer.extend_from_slice(piece).map_err(|_| OutOfRoom)
    }

    /// Appends texts, all or none, and takes memory only where the room is too small. Amortized O(length of the texts).
    pub fn try_push_all(&mut self, pieces: &[&str]) -> Result<(), OutOfRoom>
        ensures { AddsWhole result self.old self.new (texts pieces.now) }
    {
        let start = self.bytes().len();
        for piece in pieces {
            if let Err(error) = self.try_push(piece.as_bytes()) {
                self.truncate(start);
                return Err(error);
            }
        }
        Ok(())
    }

    /// Takes away what was appended after the first `len` bytes. O(bytes taken away).
    pub fn truncate(&mut self, len: usize)
        requires { len ≤ length self.old.bytes }
        ensures bytes { self.new.bytes ≡ take len self.old.bytes }
        ensures room { self.old.room + length self.old.bytes ≡ self.new.room + len }
    {
        self.buffer.truncate(len);
    }
}
