//! Cuts a stream into lines.

ghost use Rattle.std.specs.Prelude.{◌≡◌, ◌==◌, [], if◌then◌else◌};
ghost use Rattle.table_engine.specs.Lines.{short, add, added, is_blank, is_empty, is_space, has_answer, cut_of, cut_at_end, Cutter};

use arrayvec::ArrayVec;
use std::marker::Model;

/// The longest line in bytes, without its newline.
pub const MAX_LINE: usize = 65_536;

/// What a byte, or the end of a stream, completes.
#[derive(Clone, Copy, Debug, PartialEq, Eq)]
pub enum Cut {
    /// No line.
    Unended,
    /// A line of nothing but spaces, tabs and carriage returns.
    Blank,
    /// A line of more than `MAX_LINE` bytes.
    Long,
    /// Any other line.
    Line,
}

/// Cuts a stream at each newline, however it comes in pieces. The newline is not part of its line, a carriage
/// return before it is.
///
/// It keeps at most `MAX_LINE` bytes, and takes no memory but its own.
#[derive(Drop)]
pub struct LineCutter {
    buffer: ArrayVec<u8, MAX_LINE>,
    is_long: bool,
    is_ended: bool,
}

impl Model for LineCutter {
    ghost use Rattle.table_engine.specs.Lines.{Cutter, short, long};
    ghost use Rattle.std.specs.Prelude.{[], if◌then◌else◌};

    ghost Value = { Cutter };

    ghost view = { λ c. record {
      unfinished = if c.is_ended then short [] else (if c.is_long then long else short c.buffer.items);
      line = c.buffer.items;
    } };
}

impl LineCutter {
    /// A cutter at the start of a stream.
    pub fn new() -> LineCutter
        ensures { result.unfinished ≡ short [] }
    {
        LineCutter {
            buffer: ArrayVec::new(),
            is_long: false,
            is_ended: false,
        }
    }

    /// Takes the next byte, and says what it completes. O(1), and O(n) at a newline and at the byte after one, for a
    /// line of n bytes.
    pub fn feed(&mut self, byte: u8) -> Cut
        ensures cut { result ≡ (if byte == 10 then cut_of self.old.unfinished else Cut.Unended) }
        ensures unfinished { self.new.unfinished
            ≡ (if byte == 10 then short [] else add byte self.old.unfinished) }
        ensures line { result ≡ Cut.Line → self.old.unfinished ≡ short self.new.line }
    {
        if byte == b'\n' {
            let cut = self.completed();
            self.is_ended = true;
            return cut;
        }
        if self.is_ended || self.buffer.is_full() {
            self.extend(&[byte]);
        } else {
            self.buffer.push(byte);
        }
        Cut::Unended
    }

    /// Takes bytes as those of a line: no newline is looked for among them. O(n) for n bytes, and O(n) after a line of n bytes.
    pub fn extend(&mut self, bytes: &[u8])
        ensures { self.new.unfinished ≡ added bytes.now self.old.unfinished }
    {
        if self.is_ended {
            self.buffer.clear();
            self.is_long = false;
            self.is_ended = false;
        }
        if bytes.len() > self.buffer.remaining_capacity() {
            self.is_long = true;
        } else {
            self.buffer.try_extend_from_slice(bytes).unwrap();
        }
    }

    /// Takes the end of the stream, and says what it completes: no line where no byte stands after the last newline.
    /// The next byte begins a new stream. O(n) for a line of n bytes.
    pub fn finish(&mut self) -> Cut
        ensures cut { result ≡ cut_at_end self.old.unfinished }
        ensures unfinished { self.new.unfinished ≡ short [] }
        ensures line { result ≡ Cut.Line → self.old.unfinished ≡ short self.new.line }
    {
        let cut = self.pending();
        self.is_ended = true;
        cut
    }

    // Forgets the line so far.
    pub(crate) fn forget(&mut self)
        ensures { self.new.unfinished ≡ short [] }
    {
        self.is_ended = true;
    }

    /// What `finish` would answer.
    pub fn pending(&self) -> Cut
        ensures { result ≡ cut_at_end self.now.unfinished }
    {
        if self.is_empty() {
            return Cut::Unended;
        }
        self.completed()
    }

    // Whether the line so far has an answer, if it ends here.
    pub(crate) fn has_answer(&self) -> bool
        ensures { result ≡ has_answer self.now.unfinished }
    {
        matches!(self.pending(), Cut::Long | Cut::Line)
    }

    /// The last `Line`, until the next `feed` or `finish`. O(1).
    pub fn line(&self) -> &[u8]
        ensures { result.now ≡ self.now.line }
    {
        self.buffer.as_slice()
    }

    /// Whether the line so far has no byte. O(1).
    pub fn is_empty(&self) -> bool
        ensures { result ≡ is_empty self.now.unfinished }
    {
        self.is_ended || !self.is_long && self.buffer.is_empty()
    }

    // What the line is, if it ends here.
    fn completed(&self) -> Cut
        ensures { result ≡ cut_of self.now.unfinished }
    {
        if self.is_ended {
            return Cut::Blank;
        }
        if self.is_long {
            return Cut::Long;
        }
        if is_blank(self.buffer.as_slice()) {
            Cut::Blank
        } else {
            Cut::Line
        }
    }
}

fn is_space(byte: u8) -> bool
    ensures { result ≡ is_space byte }
{
    byte == b' ' || byte == b'\t' || byte == b'\r'
}

/// Whether a line holds nothing but spaces, tabs and carriage returns. O(n) for n bytes.
pub fn is_blank(line: &[u8]) -> bool
    ensures { result ≡ is_blank line.now }
{
    for byte in line {
        if !is_space(*byte) {
            return false;
        }
    }
    true
}
