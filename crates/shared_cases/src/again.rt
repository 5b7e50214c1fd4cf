//! Journals, run again on empty tables.

use crate::buffers::new_out;
use shared_tables::Journals;
use std::alloc::{AllocError, Global};
use table_engine::{Engine, Sink};
use table_schema::Schema;

/// The text of the journals.
pub fn text_of(alloc: Global, journals: &Journals) -> Result<Vec<u8>, AllocError> {
    let mut text = Vec::new(alloc);
    match journals.write(&mut Sink::new(&mut text)) {
        Ok(()) => Ok(text),
        Err(_) => Err(AllocError),
    }
}

// What one session is answered that sends these lines to empty tables.
fn answered(alloc: Global, schema: &Schema, lines: &[u8]) -> Result<Vec<u8>, AllocError> {
    let mut engine = Engine::new(alloc, schema, 1)?;
    let mut out = new_out(alloc)?;
    engine.feed(0, lines, &mut out).map_err(|_| AllocError)?;
    engine.finish(0, &mut out).map_err(|_| AllocError)?;
    out.bytes().to_vec(alloc)
}

/// What the lines of the journals are answered by empty tables.
pub fn answers_again(alloc: Global, journals: &Journals) -> Result<Vec<u8>, AllocError> {
    answered(alloc, journals.schema(), &text_of(alloc, journals)?)
}

/// What the journals say that their commands were answered.
pub fn answers_of(alloc: Global, journals: &Journals) -> Result<Vec<u8>, AllocError> {
    let mut answers = Vec::new(alloc);
    for journal in journals.tables() {
        for entry in journal {
            answers.extend_from_slice(entry.answer())?;
        }
    }
    Ok(answers)
}

/// What a command is answered after the lines of the journals, with the newline before it.
pub fn answer_after(
    alloc: Global,
    journals: &Journals,
    command: &[u8],
) -> Result<Vec<u8>, AllocError> {
    let mut lines = text_of(alloc, journals)?;
    let before = answered(alloc, journals.schema(), &lines)?.len();
    lines.extend_from_slice(command)?;
    let answers = answered(alloc, journals.schema(), &lines)?;
    answers.get(before..).unwrap_or_default().to_vec(alloc)
}
