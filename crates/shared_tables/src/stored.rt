//! What is kept of a call: the bytes of an answer, and the command of a look.

ghost use Rattle.std.specs.Prelude.{◌≡◌, ◌≤◌, length, vec_capacity};
ghost use Rattle.shared_tables.specs.Stored.{line_bytes, asked_command};

use crate::canonical::Canonical;
use arrayvec::ArrayVec;
use std::mem::replace;
use std::sync::Arc;
use table_cmd::Command;

/// The bytes of an answer: in the value itself where they are few, and else in memory of their own.
#[derive(Drop)]
pub(crate) enum Line {
    Short(ArrayVec<u8, 56>),
    Long(Vec<u8>),
}

impl Line {
    /// These bytes, for which there is room. Many of them take it, and it takes no memory beside.
    pub(crate) fn new(bytes: &[u8], room: &mut Vec<u8>) -> Line
        requires { length bytes.now ≤ vec_capacity room.old }
        ensures { line_bytes result ≡ bytes.now }
    {
        let mut short = ArrayVec::new();
        if short.try_extend_from_slice(bytes).is_ok() {
            return Line::Short(short);
        }
        let none = Vec::new(*room.allocator());
        let mut long = replace(room, none);
        long.clear();
        long.extend_from_slice(bytes).unwrap();
        Line::Long(long)
    }

    /// The bytes. O(1).
    pub(crate) fn bytes(&self) -> &[u8]
        ensures { result.now ≡ line_bytes self.now }
    {
        match self {
            Line::Short(line) => line.as_slice(),
            Line::Long(line) => line,
        }
    }
}

/// The command of a look: its own, or one that was to become a write.
#[derive(Drop)]
pub(crate) enum Asked {
    Own(Command),
    Shared(Arc<Canonical>),
}

impl Asked {
    /// The command. O(1).
    pub(crate) fn command(&self) -> &Command
        ensures { result.now ≡ asked_command self.now }
    {
        match self {
            Asked::Own(command) => command,
            Asked::Shared(canonical) => canonical.command(),
        }
    }
}
