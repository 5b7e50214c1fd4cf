//! Words of a line.

use std::alloc::AllocError;
use table_schema::{Schema, TableSpec};

/// The first word of a line, and what stands after the space behind it.
pub fn first_word(line: &[u8]) -> (&[u8], &[u8]) {
    let mut parts = line.splitn(2, |byte| *byte == b' ');
    (
        parts.next().unwrap_or_default(),
        parts.next().unwrap_or_default(),
    )
}

/// The number that digits say.
pub fn number(digits: &[u8]) -> usize {
    let mut number = 0usize;
    for digit in digits {
        number = number
            .saturating_mul(10)
            .saturating_add(digit.wrapping_sub(b'0') as usize);
    }
    number
}

/// Adds what a line says of a log's bytes, and says whether it is such a line.
pub fn add_bytes(verb: &[u8], text: &[u8], bytes: &mut Vec<u8>) -> Result<bool, AllocError> {
    match verb {
        b"line" => {
            bytes.extend_from_slice(text)?;
            bytes.push(b'\n')?;
        }
        b"torn" => bytes.extend_from_slice(text)?,
        b"zeros" => {
            for _ in 0..number(text) {
                bytes.push(0)?;
            }
        }
        _ => return Ok(false),
    }
    Ok(true)
}

/// The place of the declaration of this name.
pub fn place_of(schema: &Schema, name: &[u8]) -> Option<usize> {
    schema
        .tables()
        .iter()
        .position(|table| table.name().as_bytes() == name)
}

/// The declaration of this name.
pub fn table_of<'s>(schema: &'s Schema, name: &[u8]) -> Option<&'s TableSpec> {
    schema.tables().get(place_of(schema, name)?)
}
