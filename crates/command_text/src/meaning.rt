//! What is written for a command means it.

ghost use Rattle.std.specs.Prelude.{◌≡◌, Ok};
ghost use Rattle.command_lines.specs.Fits.{CommandFits};
ghost use Rattle.command_lines.specs.Meaning.{meaning};
ghost use Rattle.command_text.specs.Text.{command_text};
ghost use Rattle.command_text.specs.Line.{IsOneLine, IsPlain};
ghost use Rattle.table_cmd.specs.declared.command.Command.{Command};

/// A law of every command that a line can say: its canonical text is one line with no control character, and that line means the command.
pub fn text_meaning()
    ensures back { (command : Command) → CommandFits command → meaning (command_text command) ≡ Ok command }
    ensures plain { (command : Command) → CommandFits command → IsPlain (command_text command) }
    ensures one_line { (command : Command) → CommandFits command → IsOneLine (command_text command) }
{}
