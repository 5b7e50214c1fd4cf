//! Objects of the parts that are there.

ghost use Rattle.std.specs.Prelude.{◌∷◌};
ghost use Rattle.json.specs.Token.{key};
ghost use Rattle.table_reply.specs.Printed.{Prints, data_tokens};
ghost use Rattle.command_text.specs.Part.{part_data, parts_data};

use crate::part::{Part, print_part};
use json::Writer;
use std::alloc::AllocError;

// The keys come in the order given.
pub(crate) fn print_object(
    line: &mut Writer,
    parts: &[(&str, Option<Part>)],
) -> Result<(), AllocError>
    ensures { Prints result line.old line.new (data_tokens (parts_data parts.now)) }
{
    line.begin_object()?;
    for (key, part) in parts {
        if let Some(part) = part {
            print_member(line, key, *part)?;
        }
    }
    line.end_object()
}

fn print_member(line: &mut Writer, name: &str, part: Part) -> Result<(), AllocError>
    ensures { Prints result line.old line.new (key name.now ∷ data_tokens (part_data part.entry)) }
{
    line.key(name)?;
    print_part(line, part)
}
