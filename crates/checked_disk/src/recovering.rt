//! Recovers a log from its file.

ghost use Rattle.std.specs.Prelude.{◌≡◌, ◌+◌, ◌≤◌, ℕ, List, [], Ok, Option, Some, IfErr, IfOk, OnOk, length};
ghost use Rattle.checked_log.specs.Line.{Entry};
ghost use Rattle.checked_log.specs.Recover.{recovered_of};
ghost use Rattle.checked_log.specs.declared.recovery.Link.{Link};
ghost use Rattle.checked_disk.specs.Files.{IsQuiet};
ghost use Rattle.checked_disk.specs.Kept.{IsKept, IsRecovered, IsRefused};
ghost use Rattle.checked_disk.specs.Reading.{HasWalked, IsReading, IsSound};
ghost use Rattle.checked_disk.specs.Safe.{IsSafeAt};
ghost use Rattle.checked_disk.specs.Stands.{WasSafe};

use crate::disk::{CheckedDisk, LINE_ROOM, Log};
use crate::fault::{RecoverFault, RecoverWhy};
use crate::files::LogFiles;
use crate::held::Held;
use crate::reader::Reader;
use crate::texts::Texts;
use checked_log::{Link, Marks, Recovered};
use std::alloc::Global;

/// How many bytes are read at a time.
pub(crate) const PIECE: usize = 65_536;

/// A log that was recovered, and what was found of it.
#[derive(Drop)]
pub struct Found<F: LogFiles> {
    pub disk: CheckedDisk<F>,
    pub recovered: Recovered,
}

// What was found, how many bytes its plain lines have, and the memory that reading took.
#[derive(Drop)]
struct Walked {
    recovered: Recovered,
    size: u64,
    texts: Texts,
    line: Vec<u8>,
}

// Takes all bytes of a file, and counts those of the plain lines.
fn walk_all<F: LogFiles>(
    disk: &mut Held<F>,
    piece: &mut [u8],
    reader: &mut Reader,
) -> Result<u64, RecoverWhy>
    requires fresh { (reader.old.place ≡ 0) × (reader.old.line.items ≡ []) × (reader.old.plain.items ≡ []) }
    requires sound { IsSound reader.old }
    ensures found { IfOk result (λ size. (bytes : List ℕ) → F.contents disk.old.files ≡ Some bytes → HasWalked reader.old bytes size reader.new) }
    ensures refused { IfErr result (λ why. (base : Link) (mark : Option Link) (bytes : List ℕ) → IsRefused base mark bytes why) }
    ensures within { OnOk result (reader.new.walk.so_far.end ≤ disk.old.size) }
    ensures contents { F.contents disk.new.files ≡ F.contents disk.old.files }
    ensures size { disk.new.size ≡ disk.old.size }
    ensures mark { F.mark disk.new.files ≡ F.mark disk.old.files }
    ensures settles { F.settles disk.new.files ≡ F.settles disk.old.files }
    ensures puts { F.puts disk.new.files ≡ F.puts disk.old.files }
    ensures quiet { IsQuiet F.written F.may_leave F.moment F.left_since disk.old.files disk.new.files }
{
    let end = disk.size;
    let mut size = 0u64;
    while reader.place < end {
        let Ok(count) = disk.read(reader.place, piece) else {
            return Err(RecoverWhy::Disk);
        };
        if count == 0 {
            return Err(RecoverWhy::Disk);
        }
        let (front, _) = piece.split_at(count);
        reader.take(front)?;
        let Some(more) = size.checked_add(reader.plain.len() as u64) else {
            return Err(RecoverWhy::Disk);
        };
        size = more;
        reader.plain.clear();
    }
    Ok(size)
}

// Walks over a file's lines, and judges what is there.
fn walk<F: LogFiles>(
    alloc: Global,
    disk: &mut Held<F>,
    base: Link,
    mark: Option<Link>,
) -> Result<Walked, RecoverWhy>
    ensures recovered { IfOk result (λ found. (bytes : List ℕ) → F.contents disk.old.files ≡ Some bytes → recovered_of base mark bytes ≡ Ok found.recovered) }
    ensures kept { IfOk result (λ found. (bytes : List ℕ) → F.contents disk.old.files ≡ Some bytes → IsKept base bytes found.recovered.last found.recovered.end found.size) }
    ensures refused { IfErr result (λ why. (bytes : List ℕ) → F.contents disk.old.files ≡ Some bytes → IsRefused base mark bytes why) }
    ensures within { IfOk result (λ found. found.recovered.end ≤ disk.old.size) }
    ensures told { IfOk result (λ found. found.recovered.durable ≤ found.recovered.last.number) }
    ensures base { IfOk result (λ found. found.texts.base ≡ base) }
    ensures reading { IfOk result (λ found. (contents : Option (List ℕ)) → IsReading contents found.texts) }
    ensures tail { IfOk result (λ found. (found.texts.reader.tail ≡ 0) × (found.texts.reader.durable ≡ found.recovered.durable)) }
    ensures contents { F.contents disk.new.files ≡ F.contents disk.old.files }
    ensures size { disk.new.size ≡ disk.old.size }
    ensures mark { F.mark disk.new.files ≡ F.mark disk.old.files }
    ensures settles { F.settles disk.new.files ≡ F.settles disk.old.files }
    ensures puts { F.puts disk.new.files ≡ F.puts disk.old.files }
    ensures quiet { IsQuiet F.written F.may_leave F.moment F.left_since disk.old.files disk.new.files }
{
    let mut piece = vec![in alloc; 0u8; PIECE]?;
    let mut line = Vec::new(alloc);
    line.reserve(LINE_ROOM)?;
    let mut reader = Reader::new(alloc, base, mark);
    let size = match walk_all(disk, &mut piece, &mut reader) {
        Ok(size) => size,
        Err(why) => return Err(why),
    };
    reader.reserve(PIECE)?;
    let recovered = match reader.walk.judge(mark, disk.size as usize) {
        Ok(recovered) => recovered,
        Err(refusal) => return Err(RecoverWhy::Refused(refusal)),
    };
    reader.reset(base);
    reader.durable = recovered.durable;
    reader.tail = 0;
    Ok(Walked {
        recovered,
        size,
        texts: Texts {
            base,
            reader,
            read_at: 0,
            handed: 0,
            piece,
        },
        line,
    })
}

impl<F: LogFiles> CheckedDisk<F> {
    /// The log that a file of so many bytes has behind `base`, beside its mark. Nothing is changed: what stands behind the whole lines is cut off, and the lines that are not
    /// known to be durable are written again, by the first `sync` or `cut`. Until then nothing counts as synced. O(bytes).
    pub fn recover(
        alloc: Global,
        files: F,
        size: u64,
        base: Link,
        marks: Marks,
    ) -> Result<Found<F>, RecoverFault<F>>
        requires { (bytes : List ℕ) → F.contents files ≡ Some bytes → size ≡ length bytes }
        ensures recovered { IfOk result (λ found. (bytes : List ℕ) → F.contents files ≡ Some bytes → recovered_of base marks.mark bytes ≡ Ok found.recovered) }
        ensures refused { IfErr result (λ fault. (bytes : List ℕ) → F.contents files ≡ Some bytes → IsRefused base marks.mark bytes fault.why) }
        ensures file { IfOk result (λ found. F.contents found.disk.disk.files ≡ F.contents files) }
        ensures mark { IfOk result (λ found. (F.mark found.disk.disk.files ≡ F.mark files) × (found.disk.next ≡ marks.next)) }
        ensures settles { IfOk result (λ found. F.settles found.disk.disk.files ≡ F.settles files) }
        ensures puts { IfOk result (λ found. F.puts found.disk.disk.files ≡ F.puts files) }
        ensures base { IfOk result (λ found. found.disk.texts.base ≡ base) }
        ensures log { IfOk result (λ found. IsRecovered found.recovered found.disk.log) }
        ensures failures { IfOk result (λ found. found.disk.failures ≡ 0) }
        ensures back { IfErr result (λ fault. (F.contents fault.files ≡ F.contents files) × (F.mark fault.files ≡ F.mark files)) }
        ensures settles_err { IfErr result (λ fault. F.settles fault.files ≡ F.settles files) }
        ensures puts_err { IfErr result (λ fault. F.puts fault.files ≡ F.puts files) }
        ensures quiet { IfOk result (λ found. IsQuiet F.written F.may_leave F.moment F.left_since files found.disk.disk.files) }
        ensures quiet_err { IfErr result (λ fault. IsQuiet F.written F.may_leave F.moment F.left_since files fault.files) }
        ensures safe { IfOk result (λ found. (es : List Entry) → WasSafe base marks es (F.contents files) (F.may_leave files) → IsSafeAt (base.number + length es) found.disk) }
    {
        let mut disk = Held { files, size };
        let walked = match walk(alloc, &mut disk, base, marks.mark) {
            Ok(walked) => walked,
            Err(why) => {
                let Held { files, size: _ } = disk;
                return Err(RecoverFault { files, why });
            }
        };
        let Walked {
            recovered,
            size: plain,
            texts,
            line,
        } = walked;
        let log = Log {
            last: recovered.last,
            durable: recovered.durable,
            end: recovered.end as u64,
            is_settled: false,
            size: plain,
            synced: 0,
        };
        Ok(Found {
            disk: CheckedDisk {
                disk,
                next: marks.next,
                log,
                texts,
                line,
                failures: 0,
                is_over: false,
                begun: None,
            },
            recovered,
        })
    }
}
