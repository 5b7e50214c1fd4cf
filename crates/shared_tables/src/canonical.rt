//! A command that may become a write, with its line in a journal.

ghost use Rattle.std.specs.Prelude.{◌≡◌, ◌++◌, IfOk, codes};
ghost use Rattle.command_text.specs.Text.{command_text};

use command_text::set_text;
use std::alloc::AllocError;
use std::marker::Model;
use table_cmd::Command;

/// A command, and its canonical text with a newline: so its line is written with no memory.
#[derive(Drop)]
pub(crate) struct Canonical {
    command: Command,
    line: Vec<u8>,
}

impl Model for Canonical {
    ghost use Rattle.std.specs.Prelude.{◌≡◌, ◌++◌, codes};
    ghost use Rattle.command_text.specs.Text.{command_text};
    ghost use Rattle.table_cmd.specs.declared.command.Command.{Command};

    ghost Value = { Command };

    ghost view = { λ c. c.command };

    ghost invariant = { λ c. c.line.items ≡ command_text c.command ++ codes "\n" };
}

// The line of a command, in as much memory as it has bytes.
fn line_of(command: &Command, buffer: &mut Vec<u8>) -> Result<Vec<u8>, AllocError>
    ensures { IfOk result (λ line. line.items ≡ command_text command.now ++ codes "\n") }
{
    set_text(buffer, command)?;
    buffer.push(b'\n')?;
    Vec::from_slice(*buffer.allocator(), buffer)
}

impl Canonical {
    /// The command with its line, which is printed in a buffer first. O(length of the line).
    pub(crate) fn new(command: Command, buffer: &mut Vec<u8>) -> Result<Canonical, AllocError>
        ensures { IfOk result (λ canonical. canonical ≡ command) }
    {
        match line_of(&command, buffer) {
            Ok(line) => Ok(Canonical { command, line }),
            Err(error) => {
                drop(command);
                Err(error)
            }
        }
    }

    /// The command. O(1).
    pub(crate) fn command(&self) -> &Command
        ensures { result.now ≡ self.now }
    {
        &self.command
    }

    /// Its line. O(1).
    pub(crate) fn line(&self) -> &[u8]
        ensures { result.now ≡ command_text self.now ++ codes "\n" }
    {
        &self.line
    }
}
