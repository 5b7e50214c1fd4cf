//! The tables of a schema, and lines that are carried out on them.

ghost use Rattle.std.specs.Prelude.{◌≡◌, IfOk, map};
ghost use Rattle.table_reply.specs.Ready.{IsBehind};
ghost use Rattle.command_lines.specs.Meaning.{meaning};
ghost use Rattle.table_step.specs.Step.{new_table};
ghost use Rattle.table_engine.specs.Tables.{Replies, answer_to, carried, table_at};

use crate::answers::Answers;
use command_lines::{CommandFault, LineReader};
use std::alloc::{AllocError, Global};
use std::convert::Infallible;
use std::marker::Model;
use table_cmd::Command;
use table_reply::{Fault, Ready, Told};
use table_schema::Schema;
use table_step::{Outcome, Table, refuse};

/// The tables of a schema.
#[derive(Drop)]
pub(crate) struct Tables {
    reader: LineReader,
    tables: Vec<Table>,
}

impl Model for Tables {
    ghost use Rattle.std.specs.Prelude.{List};
    ghost use Rattle.table_step.specs.Step.{TableState};

    ghost Value = { List TableState };

    ghost view = { λ t. t.tables.items };
}

impl Tables {
    /// The empty tables of a schema.
    pub(crate) fn new(alloc: Global, schema: &Schema) -> Result<Tables, AllocError>
        ensures { IfOk result (λ tables. tables ≡ map new_table schema.now) }
    {
        let specs = schema.tables();
        let mut tables = Vec::with_capacity(alloc, specs.len())?;
        for spec in specs {
            tables.push(Table::new(alloc, spec)?)?;
        }
        let reader = LineReader::new(alloc)?;
        Ok(Tables { reader, tables })
    }
}

impl Answers<()> for Tables {
    ghost use Rattle.table_engine.specs.Tables.{AnswersText};

    type Refusal = Infallible;

    ghost tells = { λ _. AnswersText };

    ghost refuses = { λ _ _ _ _. ⊥ };

    fn answer<'o>(
        &mut self,
        _seat: &(),
        line: &[u8],
        out: Ready<'o>,
    ) -> Told<'o, Result<(), Infallible>> {
        let Told { what: _, out } = answer_line(&mut self.reader, &mut self.tables, line, out);
        Told { what: Ok(()), out }
    }
}

// Answers a line that is neither blank nor too long.
fn answer_line<'o>(
    reader: &mut LineReader,
    tables: &mut [Table],
    line: &[u8],
    out: Ready<'o>,
) -> Told<'o, Outcome>
    ensures answer { Replies out.entry.out.now.bytes result.out.now.bytes tables.old tables.new (answer_to tables.old (meaning line.now)) }
    ensures behind { IsBehind out.entry result }
{
    match reader.read(line) {
        Ok(command) => {
            let told = carry_out(tables, &command, out);
            drop(command);
            told
        }
        Err(CommandFault::Json) => refuse(Fault::Json, out),
        Err(CommandFault::Command) => refuse(Fault::Command, out),
        Err(CommandFault::Memory) => refuse(Fault::Memory, out),
    }
}

// Carries out a command on the table that it names, and appends the answer.
fn carry_out<'o>(tables: &mut [Table], command: &Command, out: Ready<'o>) -> Told<'o, Outcome>
    ensures answer { Replies out.entry.out.now.bytes result.out.now.bytes tables.old tables.new (carried tables.old command.now) }
    ensures behind { IsBehind out.entry result }
{
    match table_at(tables, command.table()) {
        Some(place) => tables[place].carry_out(command, out),
        None => refuse(Fault::Table, out),
    }
}

// The place of the first table of a name.
fn table_at(tables: &[Table], name: &str) -> Option<usize>
    ensures { result ≡ table_at tables.now name.now }
{
    tables.iter().position(|table| table.name() == name)
}
