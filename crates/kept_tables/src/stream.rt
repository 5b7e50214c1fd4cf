//! A stream of lines on tables with their logs.

ghost use Rattle.std.specs.Prelude.{◌≡◌, ◌++◌, [], false, List, ℕ, OnErr, OnOk};
ghost use Rattle.command_lines.specs.Fits.{CommandFits};
ghost use Rattle.table_cmd.specs.Command.{table_in};
ghost use Rattle.table_log.specs.Logged.{Stops};
ghost use Rattle.table_engine.specs.Lines.{has_answer, short};
ghost use Rattle.table_engine.specs.Stream.{RefusesLine, TellsLine};
ghost use Rattle.table_reply.specs.Ready.{IsBehind};
ghost use Rattle.kept_tables.specs.Lines.{Ended, Hears, StopsAt, StopsText, Taken, TellsAt, TellsText, is_of_log, kept_of, place_of};

use command_lines::{CommandFault, LineReader};
use memchr::memchr;
use table_cmd::Command;
use table_engine::{Cut, LineCutter};
use table_log::{Disk, LoggedTable, Over};
use table_reply::{Fault, Out, Ready, Told};
use table_step::{is_change, refuse};

/// Why a line is not answered.
#[derive(Clone, Copy, Debug, PartialEq, Eq)]
pub enum StopWhy {
    /// There is no memory for an answer, and the line was not carried out.
    Memory,
    /// The log of the line's table can't be written, now or before.
    Over,
}

/// How many bytes of a piece were taken, and why the line is not answered that the next one ends.
#[derive(Clone, Copy, Debug, PartialEq, Eq)]
pub struct Stop {
    pub taken: usize,
    pub why: StopWhy,
}

// Whether a log is over.
pub(crate) fn is_of_log(why: StopWhy) -> bool
    ensures { result ≡ is_of_log why }
{
    match why {
        StopWhy::Memory => false,
        StopWhy::Over => true,
    }
}

// The place of the first table of a name.
fn place_of<D: Disk>(tables: &[LoggedTable<D>], name: &str) -> Option<usize>
    ensures { result ≡ place_of tables.now name.now }
{
    tables.iter().position(|table| table.name() == name)
}

// Carries out a command on a table.
fn call<'o, D: Disk>(
    table: &mut LoggedTable<D>,
    command: &Command,
    out: Ready<'o>,
) -> Told<'o, Result<(), Over>>
    requires { CommandFits command.now }
    ensures told { OnOk result.what ((text : List ℕ) × (result.out.now.bytes ≡ out.entry.out.now.bytes ++ text) × (table.old.is_over ≡ false) × Hears table.old command.now text table.new) }
    ensures stopped { OnErr result.what ((result.out.now.bytes ≡ out.entry.out.now.bytes) × Stops table.old command.now table.new) }
    ensures behind { IsBehind out.entry result }
{
    if is_change(command) {
        table.call(command, out)
    } else {
        table.read(command, out)
    }
}

// Carries out a command on the table that it names, and appends the answer. Where the log of the table is over nothing is appended.
fn carry_out<'o, D: Disk>(
    tables: &mut [LoggedTable<D>],
    command: &Command,
    out: Ready<'o>,
) -> Told<'o, Result<(), Over>>
    requires { CommandFits command.now }
    ensures told { OnOk result.what ((text : List ℕ) × (result.out.now.bytes ≡ out.entry.out.now.bytes ++ text) × TellsAt tables.old (place_of tables.old (table_in command.now)) command.now text tables.new) }
    ensures stopped { OnErr result.what ((result.out.now.bytes ≡ out.entry.out.now.bytes) × StopsAt tables.old (place_of tables.old (table_in command.now)) command.now tables.new) }
    ensures behind { IsBehind out.entry result }
{
    match place_of(tables, command.table()) {
        Some(place) => call(&mut tables[place], command, out),
        None => refuse(Fault::Table, out).with(Ok(())),
    }
}

// Answers a line that is neither blank nor too long.
fn answer_line<'o, D: Disk>(
    reader: &mut LineReader,
    tables: &mut [LoggedTable<D>],
    line: &[u8],
    out: Ready<'o>,
) -> Told<'o, Result<(), Over>>
    ensures told { OnOk result.what ((text : List ℕ) × (result.out.now.bytes ≡ out.entry.out.now.bytes ++ text) × TellsText tables.old line.now text tables.new) }
    ensures stopped { OnErr result.what ((result.out.now.bytes ≡ out.entry.out.now.bytes) × StopsText tables.old line.now tables.new) }
    ensures behind { IsBehind out.entry result }
{
    match reader.read(line) {
        Ok(command) => {
            let told = carry_out(tables, &command, out);
            drop(command);
            told
        }
        Err(CommandFault::Json) => refuse(Fault::Json, out).with(Ok(())),
        Err(CommandFault::Command) => refuse(Fault::Command, out).with(Ok(())),
        Err(CommandFault::Memory) => refuse(Fault::Memory, out).with(Ok(())),
    }
}

// Whether the line so far has an answer, if it ends here.
fn has_answer(cutter: &LineCutter) -> bool
    ensures { result ≡ has_answer cutter.now.unfinished }
{
    matches!(cutter.pending(), Cut::Long | Cut::Line)
}

// Takes a newline, and answers the line that it ends. Where the log of its table is over nothing is appended, and the line is gone.
fn answer_cut<'o, D: Disk>(
    reader: &mut LineReader,
    tables: &mut [LoggedTable<D>],
    cutter: &mut LineCutter,
    out: Ready<'o>,
) -> Told<'o, Result<(), Over>>
    ensures told { OnOk result.what ((text : List ℕ) × (result.out.now.bytes ≡ out.entry.out.now.bytes ++ text) × TellsLine TellsText tables.old cutter.old.unfinished text tables.new) }
    ensures stopped { OnErr result.what ((result.out.now.bytes ≡ out.entry.out.now.bytes) × RefusesLine StopsText tables.old cutter.old.unfinished tables.new) }
    ensures ended { cutter.new.unfinished ≡ short [] }
    ensures behind { IsBehind out.entry result }
{
    match cutter.feed(b'\n') {
        Cut::Unended | Cut::Blank => {
            let Ready { out } = out;
            Told { what: Ok(()), out }
        }
        Cut::Long => refuse(Fault::Line, out).with(Ok(())),
        Cut::Line => answer_line(reader, tables, cutter.line(), out),
    }
}

/// Takes what ends the line so far, and answers the line. Where there is no room for an answer, it is not taken. Where the log of its table is over, it is
/// gone, and not answered.
pub(crate) fn end_line<D: Disk>(
    reader: &mut LineReader,
    tables: &mut [LoggedTable<D>],
    cutter: &mut LineCutter,
    out: &mut Out,
) -> Result<(), StopWhy>
    ensures { Ended result (kept_of tables.old cutter.old) out.old (kept_of tables.new cutter.new) out.new }
{
    if !has_answer(cutter) {
        cutter.finish();
        return Ok(());
    }
    let Ok(ready) = out.ready() else {
        return Err(StopWhy::Memory);
    };
    match answer_cut(reader, tables, cutter, ready).end() {
        Ok(()) => Ok(()),
        Err(Over) => Err(StopWhy::Over),
    }
}

/// Takes the bytes of a piece, line by line. At an `Err` as many bytes were taken as it says.
pub(crate) fn feed_piece<D: Disk>(
    reader: &mut LineReader,
    tables: &mut [LoggedTable<D>],
    cutter: &mut LineCutter,
    piece: &[u8],
    out: &mut Out,
) -> Result<(), Stop>
    ensures { Taken result piece.now (kept_of tables.old cutter.old) out.old (kept_of tables.new cutter.new) out.new }
{
    let mut rest = piece;
    while let Some(length) = memchr(b'\n', rest) {
        let (line, after) = rest.split_at(length);
        cutter.extend(line);
        match end_line(reader, tables, cutter, out) {
            Ok(()) => {}
            Err(why) => {
                return Err(Stop {
                    taken: piece.len() - rest.len() + length,
                    why,
                });
            }
        }
        let (_, behind) = after.split_at(1);
        rest = behind;
    }
    cutter.extend(rest);
    Ok(())
}
