//! How rows and search keys stand to one another. Each line is printed, and below it what it says:
//!
//! - `cells V ..`: how each of these cells compares to each, and the length of each text.
//! - `key C ..`: begins with no rows, and with a key of these columns, of which those below `-` fall. Which of three
//!   indices have a key, of which the second has this one, and the third is not there.
//! - `with C ..`: one index more, the last, with a key of these columns, or with none. Which indices have a key.
//! - `without I`: one less, not that of the rows' key. Which indices have a key.
//! - `row V ..`: how this row stands to each row so far, and with which of them it shares its hash.
//! - `probe V ..`: whether the key can be searched so, how each row stands to the search, and which rows have its hash.
//!
//! A value is `null`, a whole number, `true`, `false` or a text between two `'`. Signs are `<`, `=` and `>`, and `!` where two
//! ways to ask have different answers; a shared hash is `=`, and another one `.`.

mod cells;
mod keyed;
mod signs;

use cells::{cells_of, key_of, tell_cells};
use key_extract::{Probe, Row};
use keyed::Keyed;
use std::alloc::{AllocError, Global};
use std::io;
use std::io::Write;

// What a line says, which may begin a new key.
fn told(alloc: Global, keyed: &mut Option<Keyed>, line: &str) -> Result<String, AllocError> {
    let (word, rest) = line.split_once(' ').unwrap_or((line, ""));
    if word == "cells" {
        return tell_cells(alloc, &cells_of(alloc, rest)?);
    }
    if word == "key" {
        *keyed = Keyed::new(alloc, key_of(rest))?;
    }
    let Some(keyed) = keyed else {
        return Ok(String::new(alloc));
    };
    match word {
        "key" => keyed.tell_indices(alloc),
        "with" => keyed.tell_with(alloc, key_of(rest)),
        "without" => match rest.parse::<usize>() {
            Ok(index) => keyed.tell_without(alloc, index),
            Err(_) => Ok(String::new(alloc)),
        },
        "row" => keyed.tell_row(alloc, Row::new(cells_of(alloc, rest)?)),
        "probe" => keyed.tell_probe(alloc, &Probe::new(cells_of(alloc, rest)?)),
        _ => Ok(String::new(alloc)),
    }
}

/// What each line says.
pub(crate) fn tell(rt: &HostRuntime, lines: &[Vec<u8>]) -> io::Result<()> {
    let alloc = rt.alloc();
    let mut output = io::writer(rt);
    let mut keyed = None;
    for line in lines {
        let line = String::from_utf8_lossy(alloc, line)?;
        let said = told(alloc, &mut keyed, line.as_str())?;
        let text = format!(in alloc; "{}\n{}", line.as_str(), said.as_str())?;
        output.write_all(text.as_bytes())?;
    }
    Ok(())
}
