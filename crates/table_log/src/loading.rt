//! Loads a log.

ghost use Rattle.std.specs.Prelude.{◌≡◌, ◌+◌, ◌-◌, ◌^◌, ◌<◌, ◌≤◌, ℕ, List, Some, [], ◌∷◌, length, IfOk, IfErr, OnOk};
ghost use Rattle.table_log.specs.Loading.{IsLoading, IsUnloaded, Grows, GrowsTo, Loads, LoadsLine, LoadsTo, Refuses, RefusesFrom, RefusesLine, failures_after_load};

use crate::disk::Disk;
use crate::fault::OpenWhy;
use command_lines::{CommandFault, LineReader};
use std::alloc::Global;
use table_reply::{Out, OutOfRoom};
use table_step::{Outcome, Table};

/// How many bytes are read at a time.
const PIECE: usize = 65_536;

/// What the bytes so far leave.
#[derive(Drop)]
pub(crate) struct Loader {
    pub(crate) table: Table,
    /// What stands behind the last newline.
    pub(crate) line: Vec<u8>,
    /// How many lines were carried out.
    pub(crate) number: u64,
    reader: LineReader,
    out: Out,
}

impl Loader {
    // Nothing is loaded yet.
    fn new(alloc: Global, start: Table) -> Result<Loader, OutOfRoom>
        ensures loading { IfOk result (λ loader. IsLoading start [] loader) }
        ensures none { IfOk result (λ loader. (loader.line.items ≡ []) × (loader.number ≡ 0)) }
    {
        let reader = LineReader::new(alloc).map_err(|_| OutOfRoom)?;
        let out = Out::new(alloc)?;
        Ok(Loader {
            table: start,
            line: Vec::new(alloc),
            number: 0,
            reader,
            out,
        })
    }

    // Carries out the line that a newline ends now.
    fn end_line(&mut self) -> Result<(), OpenWhy>
        requires { self.old.number < 2 ^ 64 - 1 }
        ensures loaded { OnOk result (LoadsLine self.old self.new) }
        ensures refused { IfErr result (λ why. RefusesLine self.old why) }
    {
        let command = match self.reader.read(&self.line) {
            Ok(command) => command,
            Err(CommandFault::Memory) => return Err(OpenWhy::Memory),
            Err(_) => return Err(OpenWhy::Line(self.number + 1)),
        };
        let Ok(ready) = self.out.emptied();
        let outcome = self.table.step(&command, ready).end();
        drop(command);
        match outcome {
            Outcome::Write => {}
            Outcome::Memory => return Err(OpenWhy::Memory),
            Outcome::Read | Outcome::Refusal => return Err(OpenWhy::Line(self.number + 1)),
        }
        self.line.clear();
        self.number += 1;
        Ok(())
    }

    // Loads one further byte.
    fn take_byte(&mut self, byte: u8) -> Result<(), OpenWhy>
        requires { self.old.number < 2 ^ 64 - 1 }
        ensures loaded { OnOk result (Loads self.old (byte ∷ []) self.new) }
        ensures grows { OnOk result (Grows self.old 1 self.new) }
        ensures refused { IfErr result (λ why. Refuses self.old (byte ∷ []) why) }
    {
        if byte == b'\n' {
            return self.end_line();
        }
        match self.line.push(byte) {
            Ok(()) => Ok(()),
            Err(_) => Err(OpenWhy::Memory),
        }
    }

    // Loads further bytes.
    fn take(&mut self, piece: &[u8]) -> Result<(), OpenWhy>
        requires { self.old.number + length piece.now < 2 ^ 64 }
        ensures loaded { OnOk result (Loads self.old piece.now self.new) }
        ensures grows { OnOk result (Grows self.old (length piece.now) self.new) }
        ensures refused { IfErr result (λ why. Refuses self.old piece.now why) }
    {
        for byte in piece {
            match self.take_byte(*byte) {
                Ok(()) => {}
                Err(why) => return Err(why),
            }
        }
        Ok(())
    }
}

// Reads bytes of a disk from a place on, loads them, and says up to where.
fn load_piece<D: Disk>(
    disk: &mut D,
    at: u64,
    piece: &mut [u8],
    loader: &mut Loader,
) -> Result<u64, OpenWhy>
    requires within { at < D.size disk.old }
    requires few { D.size disk.old < 2 ^ 64 }
    requires room { 0 < length piece.old }
    requires number { loader.old.number ≤ at }
    ensures loaded { IfOk result (λ next. LoadsTo (D.contents disk.old) at loader.old next loader.new) }
    ensures grows { IfOk result (λ next. GrowsTo at loader.old next loader.new) }
    ensures end { IfOk result (λ next. next ≤ D.size disk.old) }
    ensures refused { IfErr result (λ why. RefusesFrom (D.contents disk.old) at loader.old why) }
    ensures contents { D.contents disk.new ≡ D.contents disk.old }
    ensures size { D.size disk.new ≡ D.size disk.old }
    ensures synced { D.synced disk.new ≡ D.synced disk.old }
    ensures failures { D.failures disk.new ≡ failures_after_load result (D.failures disk.old) }
    ensures same { D.same disk.old disk.new }
{
    let count = match disk.read(at, piece) {
        Ok(count) => count,
        Err(_) => return Err(OpenWhy::Disk),
    };
    let (front, _) = piece.split_at(count);
    match loader.take(front) {
        Ok(()) => Ok(at + count as u64),
        Err(why) => Err(why),
    }
}

// Loads the bytes of a disk.
fn load_all<D: Disk>(disk: &mut D, piece: &mut [u8], loader: &mut Loader) -> Result<(), OpenWhy>
    requires room { 0 < length piece.old }
    requires number { loader.old.number ≡ 0 }
    requires line { loader.old.line.items ≡ [] }
    ensures loaded { OnOk result (LoadsTo (D.contents disk.old) 0 loader.old (D.size disk.old) loader.new) }
    ensures line { OnOk result (length loader.new.line.items ≤ D.size disk.old) }
    ensures refused { IfErr result (λ why. RefusesFrom (D.contents disk.old) 0 loader.old why) }
    ensures contents { D.contents disk.new ≡ D.contents disk.old }
    ensures size { D.size disk.new ≡ D.size disk.old }
    ensures synced { D.synced disk.new ≡ D.synced disk.old }
    ensures failures { D.failures disk.new ≡ failures_after_load result (D.failures disk.old) }
    ensures same { D.same disk.old disk.new }
{
    let end = disk.size();
    let mut at = 0;
    while at < end {
        match load_piece(disk, at, piece, loader) {
            Ok(next) => at = next,
            Err(why) => return Err(why),
        }
    }
    Ok(())
}

/// Loads the bytes of a disk: carries out the whole lines on a table. O(bytes), and what the commands cost.
pub(crate) fn load<D: Disk>(alloc: Global, start: Table, disk: &mut D) -> Result<Loader, OpenWhy>
    ensures loaded { IfOk result (λ loader. (bytes : List ℕ) → D.contents disk.old ≡ Some bytes → IsLoading start bytes loader) }
    ensures line { IfOk result (λ loader. length loader.line.items ≤ D.size disk.old) }
    ensures refused { IfErr result (λ why. (bytes : List ℕ) → D.contents disk.old ≡ Some bytes → IsUnloaded start bytes why) }
    ensures contents { D.contents disk.new ≡ D.contents disk.old }
    ensures size { D.size disk.new ≡ D.size disk.old }
    ensures synced { D.synced disk.new ≡ D.synced disk.old }
    ensures failures { D.failures disk.new ≡ failures_after_load result (D.failures disk.old) }
    ensures same { D.same disk.old disk.new }
{
    let mut piece = vec![in alloc; 0u8; PIECE]?;
    let mut loader = Loader::new(alloc, start)?;
    match load_all(disk, &mut piece, &mut loader) {
        Ok(()) => Ok(loader),
        Err(why) => Err(why),
    }
}
