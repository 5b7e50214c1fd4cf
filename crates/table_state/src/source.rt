//! The lines of a disk.

ghost use Rattle.std.specs.Prelude.{◌≡◌, ◌∷◌, ◌+◌, ◌<◌, ◌≤◌, ◌++◌, ℕ, List, Some, [], codes, length, take, IfErr, IfOk, IfSome, OnOk};
ghost use Rattle.command_lines.specs.Fits.{CommandFits};
ghost use Rattle.command_text.specs.Line.{IsOneLine};
ghost use Rattle.table_cmd.specs.declared.command.Command.{Command};
ghost use Rattle.table_state.specs.Reading.{IsReadOf, IsWithin, ReadsOn, Seeks, Takes, TakesByte, TakesRun, held, left_of, unread};
ghost use Rattle.table_state.specs.State.{line_of};
ghost use Rattle.table_state.specs.Writing.{IsInterruption, failures_of_state};

use crate::fault::StateWhy;
use command_lines::{CommandFault, LineReader};
use command_text::write_command;
use memchr::memchr;
use std::alloc::{AllocError, Global};
use table_cmd::Command;
use table_log::Disk;
use table_reply::Out;

/// How many bytes are read at a time.
const PIECE: usize = 65_536;

// How many bytes stand before the first newline, or in all.
#[tactic(auto, using(crate::proofs::Newlines::line_front, crate::proofs::Newlines::line_whole))]
fn line_length(text: &[u8]) -> usize
    ensures within { result ≤ length text.now }
    ensures one_line { IsOneLine (take result text.now) }
{
    match memchr(b'\n', text) {
        Some(place) => place,
        None => text.len(),
    }
}

/// The bytes of a disk, and where they are read.
#[derive(Drop)]
pub(crate) struct Source {
    /// What was read last.
    pub(crate) piece: Vec<u8>,
    /// Where what is not yet taken of it begins and ends.
    pub(crate) start: usize,
    pub(crate) end: usize,
    /// The place on the disk of what comes after it.
    pub(crate) at: u64,
    /// How many bytes the disk has.
    pub(crate) size: u64,
    /// The last line, without its newline.
    pub(crate) line: Vec<u8>,
    /// Its number, from 1.
    pub(crate) number: u64,
    text: Out,
    reader: LineReader,
    alloc: Global,
}

impl Source {
    /// Nothing of so many bytes was read yet.
    pub(crate) fn new(alloc: Global, size: u64) -> Result<Source, AllocError>
        ensures left { IfOk result (λ source. (bytes : List ℕ) → left_of bytes source ≡ bytes) }
        ensures within { IfOk result (IsWithin size) }
    {
        Ok(Source {
            piece: vec![in alloc; 0u8; PIECE]?,
            start: 0,
            end: 0,
            at: 0,
            size,
            line: Vec::new(alloc),
            number: 0,
            text: Out::new(alloc).map_err(|_| AllocError)?,
            reader: LineReader::new(alloc)?,
            alloc,
        })
    }

    // Reads on, where all that was read is taken, and there is more.
    fn fill<D: Disk>(&mut self, disk: &mut D) -> Result<(), StateWhy>
        requires within { IsWithin (D.size disk.old) self.old }
        requires none { self.old.start ≡ self.old.end }
        requires more { self.old.at < self.old.size }
        ensures takes { OnOk result (Takes (D.contents disk.old) self.old [] self.new) }
        ensures some { OnOk result (self.new.start < self.new.end) }
        ensures unread { OnOk result (unread self.new ≡ unread self.old) }
        ensures why { IfErr result IsInterruption }
        ensures line { self.new.line ≡ self.old.line }
        ensures reads { ReadsOn D.Disk disk.old disk.new self.new result }
    {
        match disk.read(self.at, &mut self.piece) {
            Ok(count) => {
                self.start = 0;
                self.end = count;
                self.at += count as u64;
                Ok(())
            }
            Err(_) => {
                self.start = 0;
                self.end = 0;
                Err(StateWhy::Disk)
            }
        }
    }

    // Takes a byte of those that were read.
    fn take_held(&mut self) -> u8
        requires within { IsWithin self.old.size self.old }
        requires some { self.old.start < self.old.end }
        ensures held { held self.old ≡ result ∷ held self.new }
        ensures kept { self.new ≡ record self.old { start = self.old.start + 1 } }
    {
        let byte = self.piece[self.start];
        self.start += 1;
        byte
    }

    // Takes the next byte, if there is one.
    #[tactic(auto, using(crate::proofs::Taking::takes_held, crate::proofs::Taking::takes_both, crate::proofs::Taking::ended))]
    fn next_byte<D: Disk>(&mut self, disk: &mut D) -> Result<Option<u8>, StateWhy>
        requires within { IsWithin (D.size disk.old) self.old }
        ensures takes { IfOk result (λ byte. TakesByte (D.contents disk.old) self.old byte self.new) }
        ensures less { IfOk result (λ byte. IfSome byte (λ _. unread self.new < unread self.old)) }
        ensures why { IfErr result IsInterruption }
        ensures line { self.new.line ≡ self.old.line }
        ensures reads { ReadsOn D.Disk disk.old disk.new self.new result }
    {
        if self.start < self.end {
            return Ok(Some(self.take_held()));
        }
        if self.at >= self.size {
            return Ok(None);
        }
        match self.fill(disk) {
            Ok(()) => Ok(Some(self.take_held())),
            Err(why) => Err(why),
        }
    }

    // Takes what was read up to a newline, or all of it, onto the line.
    fn take_run(&mut self) -> Result<(), AllocError>
        requires within { IsWithin self.old.size self.old }
        ensures run { OnOk result (TakesRun self.old self.new) }
        ensures start { self.old.start ≤ self.new.start }
        ensures end { self.new.start ≤ self.old.end }
        ensures kept { self.new ≡ record self.old { start = self.new.start; line = self.new.line } }
    {
        let held = &self.piece[self.start..self.end];
        let count = line_length(held);
        self.line.extend_from_slice(&held[..count])?;
        self.start += count;
        Ok(())
    }

    /// Takes the next line with its newline.
    pub(crate) fn next_line<D: Disk>(&mut self, disk: &mut D) -> Result<(), StateWhy>
        requires within { IsWithin (D.size disk.old) self.old }
        ensures takes { OnOk result (Takes (D.contents disk.old) self.old (self.new.line.items ++ codes "\n") self.new) }
        ensures one_line { OnOk result (IsOneLine self.new.line.items) }
        ensures found { Seeks (D.contents disk.old) self.old (λ line. line ++ codes "\n") IsOneLine (λ _. self.new.line.items) result }
        ensures reads { ReadsOn D.Disk disk.old disk.new self.new result }
    {
        self.line.clear();
        self.number = self.number.saturating_add(1);
        loop {
            self.take_run()?;
            let byte = match self.next_byte(disk) {
                Ok(Some(byte)) => byte,
                Ok(None) => return Err(self.wrong()),
                Err(why) => return Err(why),
            };
            if byte == b'\n' {
                return Ok(());
            }
            self.line.push(byte)?;
        }
    }

    /// Takes the next line with its newline, and reads it as a command.
    pub(crate) fn next_command<D: Disk>(&mut self, disk: &mut D) -> Result<Command, StateWhy>
        requires within { IsWithin (D.size disk.old) self.old }
        ensures takes { OnOk result (Takes (D.contents disk.old) self.old (self.new.line.items ++ codes "\n") self.new) }
        ensures back { (command : Command) (bytes rest : List ℕ) → D.contents disk.old ≡ Some bytes → CommandFits command
            → left_of bytes self.old ≡ line_of command ++ rest → IsReadOf command self.new.line.items result }
        ensures reads { ReadsOn D.Disk disk.old disk.new self.new result }
    {
        self.next_line(disk)?;
        match self.reader.read(&self.line) {
            Ok(command) => Ok(command),
            Err(CommandFault::Memory) => Err(StateWhy::Memory),
            Err(CommandFault::Json) => Err(self.wrong()),
            Err(CommandFault::Command) => Err(self.wrong()),
        }
    }

    /// Tests whether the last line is the text of the command.
    pub(crate) fn confirm(&mut self, command: Command) -> Result<(), StateWhy>
        ensures same { OnOk result (self.new.line.items ++ codes "\n" ≡ line_of command) }
        ensures kept { self.new ≡ record self.old { text = self.new.text } }
        ensures not_disk { IfErr result (λ why. why ≡ StateWhy.Disk → ⊥) }
        ensures differs { self.old.line.items ++ codes "\n" ≡ line_of command → IfErr result IsInterruption }
    {
        self.text.clear();
        let written = write_command(self.alloc, &command, &mut self.text);
        drop(command);
        written?;
        if self.text.bytes() == self.line.as_slice() {
            Ok(())
        } else {
            Err(self.wrong())
        }
    }

    /// Tests that there is no further byte.
    pub(crate) fn end<D: Disk>(&mut self, disk: &mut D) -> Result<(), StateWhy>
        requires within { IsWithin (D.size disk.old) self.old }
        ensures none { OnOk result ((bytes : List ℕ) → D.contents disk.old ≡ Some bytes → left_of bytes self.old ≡ []) }
        ensures more { (bytes : List ℕ) → D.contents disk.old ≡ Some bytes → left_of bytes self.old ≡ [] → IfErr result IsInterruption }
        ensures contents { D.contents disk.new ≡ D.contents disk.old }
        ensures size { D.size disk.new ≡ D.size disk.old }
        ensures synced { D.synced disk.new ≡ D.synced disk.old }
        ensures failures { D.failures disk.new ≡ failures_of_state result (D.failures disk.old) }
    {
        match self.next_byte(disk)? {
            Some(_) => Err(StateWhy::Line(self.number.saturating_add(1))),
            None => Ok(()),
        }
    }

    /// That the last line is wrong.
    pub(crate) fn wrong(&self) -> StateWhy
        ensures { result ≡ StateWhy.Line self.now.number }
    {
        StateWhy::Line(self.number)
    }
}
