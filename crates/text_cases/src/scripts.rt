//! Parts that hold scripts one after the other, each below a line `=== NAME`.

use std::alloc::{AllocError, Global};

/// A schema file, and what stands below its line `---`, if it has one.
#[derive(Drop)]
pub(crate) struct Script {
    /// What it is called.
    pub(crate) name: String,
    pub(crate) file: Vec<u8>,
    /// The lines, without their newlines.
    pub(crate) lines: Vec<Vec<u8>>,
    has_lines: bool,
}

/// The name on a line that begins a script.
fn heading(line: &[u8]) -> Option<&[u8]> {
    match line {
        [b'=', b'=', b'=', b' ', name @ ..] => Some(name),
        _ => None,
    }
}

impl Script {
    // A script without lines.
    fn new(alloc: Global, name: &[u8]) -> Result<Script, AllocError> {
        Ok(Script {
            name: String::from_utf8_lossy(alloc, name)?,
            file: Vec::new(alloc),
            lines: Vec::new(alloc),
            has_lines: false,
        })
    }

    // Takes the next line.
    fn add(&mut self, alloc: Global, line: &[u8]) -> Result<(), AllocError> {
        if self.has_lines {
            self.lines.push(line.to_vec(alloc)?)?;
        } else if let [b'-', b'-', b'-'] = line {
            self.has_lines = true;
        } else {
            self.file.extend_from_slice(line)?;
            self.file.push(b'\n')?;
        }
        Ok(())
    }
}

/// The scripts on these lines.
pub(crate) fn scripts_of(alloc: Global, lines: &[Vec<u8>]) -> Result<Vec<Script>, AllocError> {
    let mut scripts: Vec<Script> = Vec::new(alloc);
    for line in lines {
        if let Some(name) = heading(line) {
            scripts.push(Script::new(alloc, name)?)?;
        } else if let Some(script) = scripts.last_mut() {
            script.add(alloc, line)?;
        }
    }
    Ok(scripts)
}
