//! A connection as a session reads and writes it: a line that takes too long ends it, and so does a request of HTTP.
ghost use Rattle.std.specs.Prelude.{◌≡◌, ◌==◌, ◌≤◌, None, if◌then◌else◌};
ghost use Rattle.std.specs.List.{list_any};

use crate::listen::Connection;
use crate::request::Beginning;
use std::io;
use std::io::{ErrorKind, Read, Write};
use std::rt::Clock;
use std::time::{Duration, Instant};

/// How many bytes one call may send, where a line has a time: so many a Unix socket takes at once or none of them, and in time.
const MOST_SENT: usize = 32_768;

/// How long a whole line may take, one way.
#[derive(Drop)]
struct LineClock {
    // None for any time.
    most: Option<Duration>,
    // When it was first waited for what ends the line.
    begun: Option<Instant>,
}

impl LineClock {
    fn new(idle: u32) -> LineClock {
        let most = if idle == 0 {
            None
        } else {
            Some(Duration::from_secs(u64::from(idle)))
        };
        LineClock { most, begun: None }
    }

    // How long the next call may wait, where a call before has waited for the same line. It fails where nothing is left.
    fn left<R: Clock + Drop>(&mut self, rt: &R) -> io::Result<Option<Duration>> {
        let Some(most) = self.most else {
            return Ok(None);
        };
        let now = Instant::now(rt)?;
        let Some(begun) = self.begun else {
            self.begun = Some(now);
            return Ok(None);
        };
        let left = most.saturating_sub(now.saturating_duration_since(begun));
        if left < Duration::from_millis(1) {
            return Err(io::Error::from(ErrorKind::TimedOut));
        }
        Ok(Some(left))
    }

    // How many of so many bytes one call may send.
    fn room(&self, count: usize) -> usize
        ensures { result ≤ count }
    {
        if self.most.is_none() {
            count
        } else {
            count.min(MOST_SENT)
        }
    }

    // Takes what came or went. Says whether a line ended: what ends the next one was not waited for yet.
    fn take(&mut self, bytes: &[u8]) -> bool
        ensures ended { result ≡ list_any (λ byte. byte == 10) bytes.now }
        ensures begun { self.new.begun ≡ (if result then None else self.old.begun) }
        ensures most { self.new.most ≡ self.old.most }
    {
        let ended = bytes.contains(&b'\n');
        if ended {
            self.begun = None;
        }
        ended
    }
}

/// What a connection sends.
#[derive(Drop)]
pub(crate) struct Sending<'a, R: Clock + Drop> {
    rt: &'a R,
    connection: &'a Connection,
    clock: LineClock,
    beginning: Beginning,
}

impl<'a, R: Clock + Drop> Sending<'a, R> {
    /// What the connection sends, where a line may take so many seconds, or any time at 0.
    pub(crate) fn new(rt: &'a R, connection: &'a Connection, idle: u32) -> Sending<'a, R> {
        Sending {
            rt,
            connection,
            clock: LineClock::new(idle),
            beginning: Beginning::new(),
        }
    }
}

impl<'a, R: Clock + Drop> Read for Sending<'a, R> {
    fn read(&mut self, piece: &mut [u8]) -> io::Result<usize> {
        let left = self.clock.left(self.rt)?;
        if left.is_some() {
            self.connection.limit_reads(left)?;
        }
        let count = self.connection.read(piece)?;
        let (bytes, _) = piece.split_at(count);
        if self.beginning.asks(bytes) {
            return Err(io::Error::from(ErrorKind::InvalidData));
        }
        if self.clock.take(bytes) && left.is_some() {
            self.connection.limit_reads(self.clock.most)?;
        }
        Ok(count)
    }
}

/// What a connection takes.
#[derive(Drop)]
pub(crate) struct Taking<'a, R: Clock + Drop> {
    rt: &'a R,
    connection: &'a Connection,
    clock: LineClock,
}

impl<'a, R: Clock + Drop> Taking<'a, R> {
    /// What the connection takes, where a line may take so many seconds, or any time at 0.
    pub(crate) fn new(rt: &'a R, connection: &'a Connection, idle: u32) -> Taking<'a, R> {
        Taking {
            rt,
            connection,
            clock: LineClock::new(idle),
        }
    }
}

impl<'a, R: Clock + Drop> Write for Taking<'a, R> {
    fn write(&mut self, bytes: &[u8]) -> io::Result<usize> {
        let left = self.clock.left(self.rt)?;
        if left.is_some() {
            self.connection.limit_writes(left)?;
        }
        let (front, _) = bytes.split_at(self.clock.room(bytes.len()));
        let count = self.connection.write(front)?;
        let (taken, _) = front.split_at(count);
        if self.clock.take(taken) && left.is_some() {
            self.connection.limit_writes(self.clock.most)?;
        }
        Ok(count)
    }

    fn flush(&mut self) -> io::Result<()> {
        Ok(())
    }
}
