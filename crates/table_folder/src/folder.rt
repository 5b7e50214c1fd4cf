//! The files of one table in a folder: what is seen of them, and what a crash may leave.

ghost use Rattle.std.specs.Prelude.{◌≡◌, ◌≤◌, ℕ, List, [], Option, Some, None, IfOk, OnOk};
ghost use Rattle.table_folder.specs.declared.name.FileName.{FileName};
ghost use Rattle.table_folder.specs.declared.name.FileName.TheVariants.{Log as LogName, Mark as MarkName, PlainLog as PlainLogName};
ghost use Rattle.table_folder.specs.Disk.{AreThere, Elapses, Image, IsLeft, IsMade, IsPut, KeepsOthers, Leads, Lists, Looks, anything, exactly, nothing, nowhere, one, put_there, two};
ghost use Rattle.table_folder.specs.Opened.{IsClosed, IsOpened};

use crate::name::FileName;
use checked_disk::LogFiles;
use file_disk::LogFile;
use std::alloc::Global;
use std::io;

/// A folder with the files of one table. A file's bytes are on the disk once the file is settled, and a name's last change once the names are: until then a
/// crash leaves each name as it was or as it is, and of the bytes of a file that is not settled it may leave anything.
pub trait Folder {
    /// A file that is open.
    type File: LogFile;

    /// A log and its mark that are open.
    type Log: LogFiles;

    /// What is seen at each name: its bytes, or that it is absent, where that is known.
    ghost seen: { Self → FileName → Option (Option (List ℕ)) };

    /// What a crash may leave at a name whose last changes are not on the disk.
    ghost was: { Self → FileName → Option (List ℕ) → Type 0 };

    /// What a crash may leave at a name whose last change is on the disk.
    ghost has: { Self → FileName → Option (List ℕ) → Type 0 };

    /// The moment, as a number that does not fall.
    ghost moment: { Self → ℕ };

    /// What a crash at some moment from that one on might have left, during a call or between two.
    ghost left_since: { Self → ℕ → Image → Type 0 };

    /// Opens the file at a name to read it, if it is there, and tells how many bytes it has.
    fn look(&self, name: FileName) -> io::Result<Option<(Self::File, u64)>>
        ensures seen { IfOk result (Looks Self.File.contents (seen self.now name)) };

    /// Where the logs begin that are there.
    fn begins(&self, alloc: Global) -> io::Result<Vec<Option<u64>>>
        ensures all { IfOk result (λ begins. Lists LogName (seen self.now) begins.items) }
        ensures there { IfOk result (λ begins. AreThere LogName (seen self.now) begins.items) };

    /// Where the logs of an older program begin that are there.
    fn plain_begins(&self, alloc: Global) -> io::Result<Vec<Option<u64>>>
        ensures all { IfOk result (λ begins. Lists PlainLogName (seen self.now) begins.items) }
        ensures there { IfOk result (λ begins. AreThere PlainLogName (seen self.now) begins.items) };

    /// Opens the log that begins so, and the mark beside it, and tells how many bytes the log has. An absent file has none. Until the log is closed its `LogFiles` say what
    /// stands in both and what a crash leaves of them, and the folder only whether their names are there.
    fn open_log(&self, begin: Option<u64>) -> io::Result<(Self::Log, u64)>
        ensures { IfOk result (IsOpened Self.Log.contents Self.Log.mark Self.Log.may_leave (seen self.now) (was self.now) (has self.now) begin) };

    /// Closes the log that was opened.
    fn close_log(&mut self, begin: Option<u64>, log: Self::Log)
        ensures others { KeepsOthers (two (LogName begin) MarkName) (seen self.old) (seen self.new) }
        ensures closed { IsClosed (Self.Log.contents log) (Self.Log.mark log) (Self.Log.may_leave log) begin (seen self.new) (was self.old) (has self.old) (was self.new) (has self.new) }
        ensures time { Elapses (moment self.old) (moment self.new) (left_since self.old) (left_since self.new) (IsLeft (was self.new) (has self.new)) };

    /// Makes an empty file at a name, or empties the one that is there, to be written.
    fn begin(&mut self, name: FileName) -> io::Result<Self::File>
        ensures crash { Leads (one name) (put_there name anything) (was self.old) (has self.old) (was self.new) (has self.new) }
        ensures others { KeepsOthers (one name) (seen self.old) (seen self.new) }
        ensures empty { IfOk result (λ file. (bytes : List ℕ) → Self.File.contents file ≡ Some bytes → bytes ≡ []) }
        ensures known { IfOk result (λ file. (x : Option (List ℕ)) → seen self.old name ≡ Some x → Self.File.contents file ≡ Some []) }
        ensures time { Elapses (moment self.old) (moment self.new) (left_since self.old) (left_since self.new) (IsLeft (was self.new) (has self.new)) };

    /// Ends the file that was begun last, at this name: waits until the system has its bytes where a crash leaves them. No other file that was begun there may be
    /// written from then on.
    fn end(&mut self, name: FileName, file: Self::File) -> io::Result<()>
        ensures crash { Leads (one name) nothing (was self.old) (has self.old) (was self.new) (has self.new) }
        ensures others { KeepsOthers (one name) (seen self.old) (seen self.new) }
        ensures durable { OnOk result ((c : Option (List ℕ)) → has self.new name c → c ≡ Self.File.contents file) }
        ensures seen { OnOk result ((bytes : List ℕ) → Self.File.contents file ≡ Some bytes → seen self.new name ≡ Some (Some bytes)) }
        ensures time { Elapses (moment self.old) (moment self.new) (left_since self.old) (left_since self.new) (IsLeft (was self.new) (has self.new)) };

    /// Makes an empty file at a name, where it is absent.
    fn make(&mut self, name: FileName) -> io::Result<()>
        ensures crash { Leads (one name) (put_there name (exactly (Some []))) (was self.old) (has self.old) (was self.new) (has self.new) }
        ensures others { KeepsOthers (one name) (seen self.old) (seen self.new) }
        ensures made { OnOk result (IsMade (seen self.old name) (seen self.new name) (has self.old name) (has self.new name)) }
        ensures time { Elapses (moment self.old) (moment self.new) (left_since self.old) (left_since self.new) (IsLeft (was self.new) (has self.new)) };

    /// Puts a file at another name, over what stands there.
    fn put_at(&mut self, from: FileName, to: FileName) -> io::Result<()>
        ensures crash { Leads (two from to) (IsPut from to (has self.old)) (was self.old) (has self.old) (was self.new) (has self.new) }
        ensures others { KeepsOthers (two from to) (seen self.old) (seen self.new) }
        ensures from { OnOk result ((c : Option (List ℕ)) → has self.new from c → c ≡ None) }
        ensures to { OnOk result ((c : Option (List ℕ)) → has self.new to c → has self.old from c) }
        ensures seen { OnOk result ((x : Option (List ℕ)) → seen self.old from ≡ Some x → (seen self.new to ≡ Some x) × (seen self.new from ≡ Some None)) }
        ensures time { Elapses (moment self.old) (moment self.new) (left_since self.old) (left_since self.new) (IsLeft (was self.new) (has self.new)) };

    /// Removes a file, where it is there.
    fn remove(&mut self, name: FileName) -> io::Result<()>
        ensures crash { Leads (one name) (put_there name (exactly None)) (was self.old) (has self.old) (was self.new) (has self.new) }
        ensures others { KeepsOthers (one name) (seen self.old) (seen self.new) }
        ensures gone { OnOk result ((c : Option (List ℕ)) → has self.new name c → c ≡ None) }
        ensures seen { OnOk result ((x : Option (List ℕ)) → seen self.old name ≡ Some x → seen self.new name ≡ Some None) }
        ensures time { Elapses (moment self.old) (moment self.new) (left_since self.old) (left_since self.new) (IsLeft (was self.new) (has self.new)) };

    /// Waits until the system has the names where a crash leaves them.
    fn settle_names(&mut self) -> io::Result<()>
        ensures crash { Leads nowhere nothing (was self.old) (has self.old) (was self.new) (has self.new) }
        ensures seen { KeepsOthers nowhere (seen self.old) (seen self.new) }
        ensures durable { OnOk result ((n : FileName) (c : Option (List ℕ)) → was self.new n c → ⊥) }
        ensures time { Elapses (moment self.old) (moment self.new) (left_since self.old) (left_since self.new) (IsLeft (was self.new) (has self.new)) };

    /// This moment is one of those since an earlier one.
    ghost counts_now: { (folder : Self) (t : ℕ) (image : Image) → t ≤ moment folder → IsLeft (was folder) (has folder) image → left_since folder t image };

    /// Since this moment there is no other.
    ghost only_now: { (folder : Self) (image : Image) → left_since folder (moment folder) image → IsLeft (was folder) (has folder) image };
}
