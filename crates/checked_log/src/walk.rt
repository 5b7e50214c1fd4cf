//! What is there of a log, line by line.

ghost use Rattle.std.specs.Prelude.{◌≡◌, ◌+◌, ◌-◌, ◌^◌, ◌<◌, ◌≤◌, true, length, option_map};
ghost use Rattle.checked_log.specs.Recover.{judged, walk_from, whole_entry, with_behind, with_count, with_line, with_whole};
ghost use Rattle.checked_log.specs.Line.{line_digest};
ghost use Rattle.checked_log.specs.Whole.{agrees as spec_agrees, follows as spec_follows, marked_number};
ghost use Rattle.checked_log.specs.Read.{said};

use crate::line::{Line, read_line};
use crate::recovery::{Behind, Link, Recovered, Refusal};

/// What was found so far of a log that is read line by line.
#[derive(Clone, Copy, Debug, PartialEq, Eq)]
pub struct Walk {
    /// Each line so far is whole.
    pub is_whole: bool,
    /// The mark agrees with each write so far.
    pub is_marked: bool,
    /// What is there, but for how many bytes are behind.
    pub so_far: Recovered,
}

// The number that a mark tells.
fn number_of(mark: Option<Link>) -> u64
    ensures { result ≡ marked_number mark }
{
    match mark {
        Some(link) => link.number,
        None => 0,
    }
}

// Whether the mark has another number, or the same digest.
fn agrees(mark: Option<Link>, link: Link) -> bool
    ensures { result ≡ spec_agrees mark link }
{
    match mark {
        Some(mark) => mark.number != link.number || mark.digest == link.digest,
        None => true,
    }
}

// Whether a line is the next one behind a link.
fn follows(link: Link, line: Line<'_>) -> bool
    ensures { result ≡ spec_follows link (said line.entry) }
{
    link.number.checked_add(1) == Some(line.number) && line.before == link.digest
}

impl Walk {
    /// Before the first line of a log that begins behind `base`, beside a mark.
    pub fn new(base: Link, mark: Option<Link>) -> Walk
        ensures { result ≡ walk_from base mark }
    {
        Walk {
            is_whole: true,
            is_marked: agrees(mark, base),
            so_far: Recovered {
                last: base,
                end: 0,
                durable: base.number.max(number_of(mark)),
                behind: Behind {
                    bytes: 0,
                    lines: 0,
                    first: None,
                },
            },
        }
    }

    // A whole line more, of so many bytes.
    fn take_whole(&mut self, mark: Option<Link>, count: usize, line: Line<'_>)
        requires room { self.old.so_far.end + count < 2 ^ 64 - 1 }
        requires said { line.digest ≡ line_digest (said line) }
        requires whole { self.old.is_whole ≡ true }
        ensures { self.new ≡ with_whole mark self.old count (said line.entry) }
    {
        self.so_far.last = Link {
            number: line.number,
            digest: line.digest,
        };
        self.so_far.end += count + 1;
        self.so_far.durable = self.so_far.durable.max(line.durable);
        self.is_marked = self.is_marked && agrees(mark, self.so_far.last);
    }

    // A well-formed line more behind the whole ones.
    fn take_behind(&mut self, line: Line<'_>)
        requires { self.old.so_far.behind.lines < 2 ^ 64 - 1 }
        ensures { self.new ≡ with_behind self.old (said line.entry) }
    {
        self.is_whole = false;
        self.so_far.durable = self.so_far.durable.max(line.durable);
        self.so_far.behind.lines += 1;
        self.so_far.behind.first = self.so_far.behind.first.or(Some(line.number));
    }

    /// A line more, without its newline, beside the mark that the walk began with. It tells what the line says, if it is whole. O(bytes).
    pub fn take<'a>(&mut self, mark: Option<Link>, line: &'a [u8]) -> Option<Line<'a>>
        requires { self.old.so_far.end + self.old.so_far.behind.lines + length line.now < 2 ^ 64 - 1 }
        ensures walk { self.new ≡ with_line mark self.old line.now }
        ensures whole { option_map said result ≡ whole_entry self.old line.now }
    {
        let Some(said) = read_line(line) else {
            self.is_whole = false;
            return None;
        };
        if self.is_whole && follows(self.so_far.last, said) {
            self.take_whole(mark, line.len(), said);
            Some(said)
        } else {
            self.take_behind(said);
            None
        }
    }

    /// What is there of so many bytes, once each of their lines was taken, or why it is refused. O(1).
    pub fn judge(mut self, mark: Option<Link>, count: usize) -> Result<Recovered, Refusal>
        requires { self.so_far.end ≤ count }
        ensures { result ≡ judged mark self.is_marked (with_count count self.so_far) }
    {
        self.so_far.behind.bytes = count - self.so_far.end;
        if self.so_far.last.number < self.so_far.durable {
            return Err(Refusal::Hurt {
                whole: self.so_far.last.number,
                durable: self.so_far.durable,
            });
        }
        if self.is_marked {
            Ok(self.so_far)
        } else {
            Err(Refusal::Strange {
                number: number_of(mark),
            })
        }
    }
}
