//! What becomes of a log from before a state.
ghost use Rattle.std.specs.Prelude.{◌≡◌, false};
ghost use Rattle.checked_log.specs.Read.{said};
ghost use Rattle.checked_log.specs.Line.{line_digest};
ghost use Rattle.table_folder.specs.Ended as spec;
ghost use Rattle.table_folder.specs.Ended.{begun, judged, with_entry, with_line};

use checked_log::{Line, Link, read_line};

/// What stands in a log so far.
#[derive(Clone, Copy, Debug, PartialEq, Eq)]
pub struct Ended {
    /// Each line is whole, and goes on where the one before ends.
    is_whole: bool,
    /// The number of the last whole line.
    number: u64,
    /// Its digest, where it is known.
    digest: Option<u64>,
    /// The greatest number of a line. A line tells fewer writes as durable.
    most: u64,
}

/// What becomes of a log from before a state.
#[derive(Clone, Copy, Debug, PartialEq, Eq)]
pub enum OldLog {
    /// It tells of later writes than the state has.
    Later,
    /// It is whole, and ends with the state's last write: it is removed.
    Spent,
    /// It is left.
    Left,
}

// Whether a line goes on where another ends, whose digest may not be known.
fn goes_on(number: u64, digest: Option<u64>, line: Line<'_>) -> bool
    ensures { result ≡ spec.goes_on number digest (said line.entry) }
{
    let is_behind = match digest {
        Some(digest) => digest == line.before,
        None => true,
    };
    number.checked_add(1) == Some(line.number) && is_behind
}

impl Ended {
    /// No line came yet of a log that begins behind this write.
    pub fn new(number: u64, digest: Option<u64>) -> Ended
        ensures { result ≡ begun number digest }
    {
        Ended {
            is_whole: true,
            number,
            digest,
            most: 0,
        }
    }

    // A well-formed line more.
    fn take_line(&mut self, line: Line<'_>)
        requires { line.digest ≡ line_digest (said line) }
        ensures { self.new ≡ with_entry self.old (said line.entry) }
    {
        self.is_whole = self.is_whole && goes_on(self.number, self.digest, line);
        self.most = self.most.max(line.number);
        if self.is_whole {
            self.number = line.number;
            self.digest = Some(line.digest);
        }
    }

    /// A line more.
    pub fn take(&mut self, text: &[u8])
        ensures { self.new ≡ with_line self.old text.now }
    {
        match read_line(text) {
            Some(line) => self.take_line(line),
            None => self.is_whole = false,
        }
    }

    /// Bytes behind the last newline.
    pub fn take_rest(&mut self)
        ensures { self.new ≡ record self.old { is_whole = false } }
    {
        self.is_whole = false;
    }

    /// What becomes of the log beside a state with this last write.
    pub fn judge(&self, state: Link) -> OldLog
        ensures { result ≡ judged self.now state }
    {
        if self.most > state.number {
            OldLog::Later
        } else if self.is_whole
            && self.number == state.number
            && self.digest == Some(state.digest)
        {
            OldLog::Spent
        } else {
            OldLog::Left
        }
    }
}

/// Whether a log that begins so is behind a later state than this one.
pub fn is_later(begin: Option<u64>, state: Option<u64>) -> bool
    ensures { result ≡ spec.is_later begin state }
{
    match (begin, state) {
        (Some(begin), Some(state)) => begin > state,
        (begin, None) => begin.is_some(),
        (None, Some(_)) => false,
    }
}
