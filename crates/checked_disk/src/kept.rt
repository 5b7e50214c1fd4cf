//! What is known of a log, with which it is gone on with once its files are opened again.

ghost use Rattle.std.specs.Prelude.{◌≡◌, ◌⊎◌, ◌<◌, ◌≤◌, ◌+◌, ℕ, List, Option, Some, IfErr, IfOk, false, length};
ghost use Rattle.checked_log.specs.Line.{Entry};
ghost use Rattle.checked_log.specs.declared.mark.Marks.{Marks};
ghost use Rattle.checked_disk.specs.Reading.{IsReading};
ghost use Rattle.checked_disk.specs.Stands.{WasSafe};

use crate::disk::{CheckedDisk, LINE_ROOM, Log};
use crate::fault::{RecoverFault, RecoverWhy};
use crate::files::LogFiles;
use crate::held::Held;
use crate::reader::Reader;
use crate::recovering::PIECE;
use crate::texts::Texts;
use checked_log::Link;
use std::alloc::{AllocError, Global};

/// What is known of a log.
#[derive(Clone, Copy)]
pub struct Kept {
    base: Link,
    log: Log,
    // The place of the mark's slot that is written next.
    next: usize,
    // All lines before this place are durable.
    tail: u64,
    ghost told: { log.durable ≤ log.last.number },
}

// The memory to read a log, of which nothing was read.
fn unread(alloc: Global, kept: Kept) -> Result<Texts, AllocError>
    ensures base { IfOk result (λ texts. texts.base ≡ kept.base) }
    ensures tail { IfOk result (λ texts. (texts.reader.tail ≡ kept.tail) × (texts.reader.durable ≡ kept.log.durable)) }
    ensures reading { IfOk result (λ texts. (contents : Option (List ℕ)) → IsReading contents texts) }
{
    let piece = vec![in alloc; 0u8; PIECE]?;
    let mut reader = Reader::new(alloc, kept.base, None);
    reader.reserve(PIECE)?;
    reader.durable = kept.log.durable;
    reader.tail = kept.tail;
    Ok(Texts {
        base: kept.base,
        reader,
        read_at: 0,
        handed: 0,
        piece,
    })
}

// Room for a line.
fn line_room(alloc: Global) -> Result<Vec<u8>, AllocError> {
    let mut line = Vec::new(alloc);
    line.reserve(LINE_ROOM)?;
    Ok(line)
}

impl<F: LogFiles> CheckedDisk<F> {
    ghost use Rattle.checked_disk.specs.Resumed.{IsKeptOf, unsettled};
    ghost use Rattle.checked_disk.specs.Safe.{IsSafe, IsSafeAt};
    ghost use Rattle.checked_disk.specs.declared.fault.RecoverWhy.TheVariants.{Disk as OfDisk, Memory};

    /// What is known of the log. With it `resume` goes on once its files are opened again. O(1).
    pub fn kept(&self) -> Kept
        ensures base { result.base ≡ self.now.texts.base }
        ensures log { result.log ≡ self.now.log }
        ensures next { result.next ≡ self.now.next }
        ensures tail { result.tail ≡ self.now.texts.reader.tail }
        ensures of { (bytes : List ℕ) → F.contents self.now.disk.files ≡ Some bytes → IsKeptOf bytes result }
    {
        Kept {
            base: self.texts.base,
            log: self.log,
            next: self.next,
            tail: self.texts.reader.tail,
        }
    }

    /// The log that was kept, over its files of so many bytes, which were opened again. Nothing is read or changed: as after `recover`, what stands behind the whole lines is
    /// cut off, and the lines that are not known to be durable are written again, by the first `sync` or `cut`. It is refused where the file is shorter than its lines. O(1).
    pub fn resume(
        alloc: Global,
        files: F,
        size: u64,
        kept: Kept,
    ) -> Result<CheckedDisk<F>, RecoverFault<F>>
        requires size { (bytes : List ℕ) → F.contents files ≡ Some bytes → size ≡ length bytes }
        requires kept { (bytes : List ℕ) → F.contents files ≡ Some bytes → IsKeptOf bytes kept }
        ensures files { IfOk result (λ disk. disk.disk.files ≡ files) }
        ensures next { IfOk result (λ disk. disk.next ≡ kept.next) }
        ensures base { IfOk result (λ disk. disk.texts.base ≡ kept.base) }
        ensures log { IfOk result (λ disk. disk.log ≡ unsettled kept.log) }
        ensures tail { IfOk result (λ disk. disk.texts.reader.tail ≡ kept.tail) }
        ensures failures { IfOk result (λ disk. disk.failures ≡ 0) }
        ensures is_over { IfOk result (λ disk. disk.is_over ≡ false) }
        ensures back { IfErr result (λ fault. fault.files ≡ files) }
        ensures why { IfErr result (λ fault. (fault.why ≡ Memory) ⊎ ((fault.why ≡ OfDisk) × (size < kept.log.end))) }
        ensures safe { IfOk result (λ disk. (synced : ℕ) → IsSafe kept.base (F.contents files) kept.next kept.log.durable synced (F.may_leave files) → IsSafeAt synced disk) }
        ensures start { IfOk result (λ disk. (marks : Marks) (es : List Entry) → marks.next ≡ kept.next → kept.log.durable ≤ kept.base.number + length es
            → WasSafe kept.base marks es (F.contents files) (F.may_leave files) → IsSafeAt (kept.base.number + length es) disk) }
    {
        if size < kept.log.end {
            return Err(RecoverFault {
                files,
                why: RecoverWhy::Disk,
            });
        }
        let (Ok(texts), Ok(line)) = (unread(alloc, kept), line_room(alloc)) else {
            return Err(RecoverFault {
                files,
                why: RecoverWhy::Memory,
            });
        };
        Ok(CheckedDisk {
            disk: Held { files, size },
            next: kept.next,
            log: Log {
                is_settled: false,
                synced: 0,
                ..kept.log
            },
            texts,
            line,
            failures: 0,
            is_over: false,
            begun: None,
        })
    }
}
