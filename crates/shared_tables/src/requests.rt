//! Lines that are read and wait to be carried out.

ghost use Rattle.std.specs.Prelude.{◌≡◌, ◌<◌, ◌++◌, ◌∷◌, [], IfNone, IfOk, IfSome, Option, length, nat_le};
ghost use Rattle.std.specs.Option.{option_to_list};
ghost use Rattle.table_cmd.specs.Command.{table_in};
ghost use Rattle.table_engine.specs.Lines.{short, added};
ghost use Rattle.shared_tables.specs.Requests.{Asks};
ghost use Rattle.shared_tables.specs.declared.request.Request.{Request};
ghost use Rattle.shared_tables.specs.declared.request.Request.TheVariants as requests;

use crate::request::{Request, end_line, take_line};
use command_lines::LineReader;
use std::alloc::{AllocError, Global};
use std::collections::VecDeque;
use std::marker::Model;
use table_cmd::Command;
use table_engine::LineCutter;

/// The most lines that wait.
pub(crate) const MOST: usize = 128;

/// What lines ask, in their order. There is room for `MOST` of them.
#[derive(Drop)]
pub(crate) struct Requests {
    reader: LineReader,
    waiting: VecDeque<Request>,
}

impl Model for Requests {
    ghost use Rattle.std.specs.Prelude.{◌≡◌, List};
    ghost use Rattle.std.specs.VecDeque.{deque_capacity};
    ghost use Rattle.shared_tables.specs.declared.request.Request.{Request};
    ghost use Rattle.shared_tables.specs.declared.requests.TheConstants.{MOST};

    ghost Value = { List Request };

    ghost view = { λ r. r.waiting.items };

    ghost invariant = { λ r. deque_capacity r.waiting ≡ MOST };
}

impl Requests {
    /// None, with room for as many as there may be.
    pub(crate) fn new(alloc: Global) -> Result<Requests, AllocError>
        ensures { IfOk result (λ requests. requests ≡ []) }
    {
        let waiting = VecDeque::with_capacity(alloc, MOST)?;
        let reader = LineReader::new(alloc)?;
        Ok(Requests { reader, waiting })
    }

    /// Whether there is no room for one more. O(1).
    pub(crate) fn is_full(&self) -> bool
        ensures { result ≡ nat_le 128 (length self.now) }
    {
        self.waiting.len() >= MOST
    }

    /// Takes bytes and the newline after them, and puts what the line asks that they end behind the others.
    pub(crate) fn take_line(&mut self, cutter: &mut LineCutter, line: &[u8])
        requires { length self.old < 128 }
        ensures asks { (asked : Option Request) × Asks (added line.now cutter.old.unfinished) asked × (self.new ≡ self.old ++ option_to_list asked) }
        ensures ended { cutter.new.unfinished ≡ short [] }
    {
        let asked = take_line(&mut self.reader, cutter, line);
        self.put(asked);
    }

    /// Takes a newline, and puts what the line asks that it ends behind the others.
    pub(crate) fn end_line(&mut self, cutter: &mut LineCutter)
        requires { length self.old < 128 }
        ensures asks { (asked : Option Request) × Asks cutter.old.unfinished asked × (self.new ≡ self.old ++ option_to_list asked) }
        ensures ended { cutter.new.unfinished ≡ short [] }
    {
        let asked = end_line(&mut self.reader, cutter);
        self.put(asked);
    }

    // Puts one behind the others, if there is one.
    fn put(&mut self, request: Option<Request>)
        requires { length self.old < 128 }
        ensures { self.new ≡ self.old ++ option_to_list request }
    {
        if let Some(request) = request {
            self.waiting.push_back(request).unwrap();
        }
    }

    /// Takes the first one out. O(1).
    pub(crate) fn pop(&mut self) -> Option<Request>
        ensures items { self.old ≡ option_to_list result ++ self.new }
        ensures none { IfNone result (self.new ≡ []) }
    {
        self.waiting.pop_front()
    }

    /// Takes the first one out, if it is a command for the table of this name. O(length of the name).
    pub(crate) fn pop_for(&mut self, name: &str) -> Option<Command>
        ensures some { IfSome result (λ command. (self.old ≡ requests.Command command ∷ self.new) × (table_in command ≡ name.now)) }
        ensures none { IfNone result (self.new ≡ self.old) }
    {
        match self.waiting.front() {
            Some(Request::Command(command)) if command.table() == name => {}
            _ => return None,
        }
        match self.waiting.pop_front() {
            Some(Request::Command(command)) => Some(command),
            _ => None,
        }
    }
}
