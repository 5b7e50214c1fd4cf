//! Bytes that are spelled by numbers.

use std::alloc::{AllocError, Global};

// Where in a spelling the next byte stands.
#[derive(Clone, Copy)]
enum Place {
    Outside,
    Opening,
    Count,
    Byte,
}

// A line that is read so far: its bytes, and the run that is being spelled.
#[derive(Drop)]
struct Spelling {
    bytes: Vec<u8>,
    place: Place,
    count: usize,
    byte: u8,
}

impl Spelling {
    fn push_run(&mut self) -> Result<(), AllocError> {
        for _ in 0..self.count {
            self.bytes.push(self.byte)?;
        }
        Ok(())
    }

    fn take(&mut self, byte: u8) -> Result<(), AllocError> {
        let digit = byte.wrapping_sub(b'0');
        match (self.place, byte) {
            (Place::Outside, b'@') => self.place = Place::Opening,
            (Place::Outside, _) => self.bytes.push(byte)?,
            (Place::Opening, _) => {
                self.count = 0;
                self.byte = 0;
                self.place = Place::Count;
            }
            (Place::Count, b' ') => self.place = Place::Byte,
            (Place::Count, _) => {
                self.count = self.count.saturating_mul(10).saturating_add(digit as usize);
            }
            (Place::Byte, b')') => {
                self.push_run()?;
                self.place = Place::Outside;
            }
            (Place::Byte, _) => self.byte = self.byte.wrapping_mul(10).wrapping_add(digit),
        }
        Ok(())
    }
}

/// The bytes of a line, in which `@(COUNT BYTE)` stands for so many bytes of that number.
pub fn spelled_out(alloc: Global, line: &[u8]) -> Result<Vec<u8>, AllocError> {
    let mut spelling = Spelling {
        bytes: Vec::new(alloc),
        place: Place::Outside,
        count: 0,
        byte: 0,
    };
    for byte in line {
        spelling.take(*byte)?;
    }
    Ok(spelling.bytes)
}
