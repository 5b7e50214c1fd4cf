//! What is told of calls and of journals.

use crate::again::{answers_again, answers_of, text_of};
use crate::report::Report;
use command_lines::CommandFault;
use shared_tables::{CallFault, Entry, GatherWhy, Journals, UncomparedJournals};
use std::alloc::{AllocError, Global};
use table_engine::{Sink, StreamFault};
use table_schema::TableSpec;

/// Adds the answer to a line that is no command.
pub fn tell_unread(fault: CommandFault, report: &mut Report) -> Result<(), AllocError> {
    report.text(match fault {
        CommandFault::Json => "  {\"err\":\"json\"}\n",
        CommandFault::Command => "  {\"err\":\"command\"}\n",
        CommandFault::Memory => "  {\"err\":\"memory\"}\n",
    })
}

/// Adds why a call was refused.
pub fn tell_fault(fault: CallFault, report: &mut Report) -> Result<(), AllocError> {
    match fault {
        CallFault::Stranger => report.text("  stranger\n"),
        CallFault::Regressed { expected, found } => {
            report.text("  regressed: expected ")?;
            report.number(expected)?;
            report.text(", found ")?;
            report.number(found)?;
            report.text("\n")
        }
    }
}

/// Adds why nothing was gathered.
pub fn tell_why(why: GatherWhy, report: &mut Report) -> Result<(), AllocError> {
    match why {
        GatherWhy::Memory => report.text("  memory\n"),
        GatherWhy::Mismatch { table, session } => {
            report.text("  mismatch: table ")?;
            report.number(table)?;
            report.text(", session ")?;
            report.number(session)?;
            report.text("\n")
        }
    }
}

fn tell_entry(entry: &Entry, report: &mut Report) -> Result<(), AllocError> {
    report.text("    session ")?;
    report.number(entry.session())?;
    report.text(", write ")?;
    report.number(entry.serial())?;
    report.text(": ")?;
    report.push(entry.answer())
}

fn tell_journal(
    table: &TableSpec,
    journal: &[Entry],
    report: &mut Report,
) -> Result<(), AllocError> {
    report.text("  table ")?;
    report.text(table.name())?;
    report.text("\n")?;
    for entry in journal {
        tell_entry(entry, report)?;
    }
    Ok(())
}

/// Adds how many entries each of the journals has, and their text.
pub fn tell_uncompared(
    alloc: Global,
    journals: &UncomparedJournals,
    report: &mut Report,
) -> Result<(), AllocError> {
    for journal in journals.tables() {
        report.text("  entries: ")?;
        report.number(journal.len() as u64)?;
        report.text("\n")?;
    }
    let mut text = Vec::new(alloc);
    match journals.write(&mut Sink::new(&mut text)) {
        Ok(()) => report.push(&text),
        Err(_) => Err(AllocError),
    }
}

/// Adds the text of the journals, or the front of it that was written, and why no more was.
pub fn tell_written(
    alloc: Global,
    journals: &Journals,
    report: &mut Report,
) -> Result<(), AllocError> {
    let mut text = Vec::new(alloc);
    let written = journals.write(&mut Sink::new(&mut text));
    report.push(&text)?;
    match written {
        Ok(()) => Ok(()),
        Err(StreamFault::Read) => report.text("  read\n"),
        Err(StreamFault::Write) => report.text("  write\n"),
        Err(StreamFault::Memory) => report.text("  memory\n"),
    }
}

/// Adds whether something holds.
pub fn tell_whether(what: &str, holds: bool, report: &mut Report) -> Result<(), AllocError> {
    report.text(what)?;
    report.text(if holds { "yes\n" } else { "no\n" })
}

/// Adds the entries of the journals and their text, and whether its lines are answered by empty tables as they were.
pub fn tell_journals(
    alloc: Global,
    journals: &Journals,
    report: &mut Report,
) -> Result<(), AllocError> {
    for (table, journal) in journals.schema().tables().iter().zip(journals.tables()) {
        tell_journal(table, journal, report)?;
    }
    report.push(&text_of(alloc, journals)?)?;
    let same = answers_again(alloc, journals)? == answers_of(alloc, journals)?;
    tell_whether("  answered again the same: ", same, report)
}
