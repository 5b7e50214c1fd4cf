//! What a start finds once a crash left something of an open log.

ghost use Rattle.std.specs.Prelude.{◌≡◌, ◌≢◌, ◌⊎◌, ◌++◌, ◌+◌, ℕ, List, Option, Some, length};
ghost use Rattle.checked_disk.specs.Files.{Left};
ghost use Rattle.checked_disk.specs.Safe.{IsSafeAt, entries_of};
ghost use Rattle.checked_disk.specs.Stands.{Stands, StandsFrom};
ghost use Rattle.checked_log.specs.Line.{Entry};
ghost use Rattle.checked_log.specs.Whole.{ended, last_link};
ghost use Rattle.table_folder.specs.Compacting.{AreDue};
ghost use Rattle.table_folder.specs.Disk.{Image, IsLeft};
ghost use Rattle.table_folder.specs.Found.{Beginning, Declared, IsDue};
ghost use Rattle.table_folder.specs.Joined.{AreAccepted, FindsFront, GoesFrom, HasNoOther, HasThese, IsJoined, MayFollow, SeesAround, StandAround};
ghost use Rattle.table_folder.specs.Opened.{IsClosed, bytes_in};
ghost use Rattle.table_folder.specs.Settled.{MayLeave};
ghost use Rattle.table_folder.specs.declared.name.FileName.{FileName};
ghost use Rattle.table_folder.specs.declared.name.FileName.TheVariants.{Log};
ghost use Rattle.table_terms.specs.Table.{TableState};

use crate::folder::Folder;
use checked_disk::{CheckedDisk, LogFiles};

/// A law of all crashes. Of a log one leaves the lines that were sure, and perhaps more: a start finds the table after the first of the writes, with each one that was sure, also
/// where further ones were being written. Where all were sure it finds the table after all, and a state may take the place of the log, unless it goes on from that state.
pub fn a_start_goes_on()
    ensures front { (d : Declared) (from : Beginning) (files image : Image) (es : List Entry) (t : TableState) (sure : ℕ) (c : Left) → GoesFrom d from files
        → AreAccepted from.table es t → StandsFrom from.link es sure c → HasNoOther from.link es sure (ended c.log) → IsJoined files from.state c image → FindsFront d from es sure image }
    ensures writing { (d : Declared) (from : Beginning) (files image : Image) (es more : List Entry) (t : TableState) (sure : ℕ) (c : Left) → GoesFrom d from files
        → AreAccepted from.table (es ++ more) t → StandsFrom from.link es sure c → MayFollow from.link es more sure
        → HasNoOther from.link (es ++ more) sure (ended c.log) → IsJoined files from.state c image → FindsFront d from (es ++ more) sure image }
    ensures all { (d : Declared) (from : Beginning) (files image : Image) (es : List Entry) (t : TableState) (c : Left) → GoesFrom d from files
        → AreAccepted from.table es t → StandsFrom from.link es (from.link.number + length es) c → HasThese es (ended c.log) → IsJoined files from.state c image
        → from.state ≢ Some (last_link from.link es).number → IsDue d t (last_link from.link es) image }
{}

/// A law of all logs that are open. Where the lines are sure up to a number, whatever a crash leaves now, a start finds the table after the first writes, with each of those.
pub fn an_open_log_goes_on<F: LogFiles>(disk: &CheckedDisk<F>)
    ensures { (d : Declared) (from : Beginning) (files image : Image) (t : TableState) (sure : ℕ) (c : Left) → let es = entries_of from.link (F.contents disk.now.disk.files) in
        GoesFrom d from files → AreAccepted from.table es t → disk.now.texts.base ≡ from.link → IsSafeAt sure disk.now → F.may_leave disk.now.disk.files c
        → HasNoOther from.link es sure (ended c.log) → IsJoined files from.state c image → FindsFront d from es sure image }
{}

/// A law of all logs that are closed. Of one whose lines were sure up to a number, and of its mark, a crash may leave different things then. Together they have those lines, so
/// `a_start_goes_on` tells what a start finds (`left`). So they have, where one of both is taken as it is seen, if what is seen of them has those lines (`seen`). Where all its lines
/// are sure, and there are no others, the state of the table that they leave is due, whatever a crash may have left: `compact` may put it there (`due`).
pub fn a_closed_log_stands<F: Folder>(disk: &CheckedDisk<F::Log>, before: &F, after: &F)
    ensures left { (begin : Option ℕ) (files image : Image) (sure : ℕ) → IsSafeAt sure disk.now → StandAround (F.was before.now) (F.has before.now) begin files
        → IsClosed (F.Log.contents disk.now.disk.files) (F.Log.mark disk.now.disk.files) (F.Log.may_leave disk.now.disk.files) begin (F.seen after.now)
        (F.was before.now) (F.has before.now) (F.was after.now) (F.has after.now)
        → IsLeft (F.was after.now) (F.has after.now) image
        → (c : Left) × IsJoined files begin c image × StandsFrom disk.now.texts.base (entries_of disk.now.texts.base (F.Log.contents disk.now.disk.files)) sure c }
    ensures seen { (begin : Option ℕ) (files then image : Image) (sure : ℕ) (now : Left) → IsSafeAt sure disk.now → StandAround (F.was before.now) (F.has before.now) begin files
        → IsClosed (F.Log.contents disk.now.disk.files) (F.Log.mark disk.now.disk.files) (F.Log.may_leave disk.now.disk.files) begin (F.seen after.now)
        (F.was before.now) (F.has before.now) (F.was after.now) (F.has after.now)
        → SeesAround (F.seen after.now) begin files then → F.Log.contents disk.now.disk.files ≡ Some now.log → F.Log.mark disk.now.disk.files ≡ Some now.mark
        → Stands disk.now.texts.base (entries_of disk.now.texts.base (F.Log.contents disk.now.disk.files)) sure now
        → ((n : FileName) → (image n ≡ then n) ⊎ MayLeave (F.was after.now) (F.has after.now) n (image n))
        → (c : Left) × IsJoined files begin c image × StandsFrom disk.now.texts.base (entries_of disk.now.texts.base (F.Log.contents disk.now.disk.files)) sure c }
    ensures due { (d : Declared) (from : Beginning) (files then : Image) (t : TableState) (now : Left) → let es = entries_of from.link (F.Log.contents disk.now.disk.files) in
        GoesFrom d from files → AreAccepted from.table es t → disk.now.texts.base ≡ from.link → IsSafeAt (from.link.number + length es) disk.now
        → StandAround (F.was before.now) (F.has before.now) from.state files
        → IsClosed (F.Log.contents disk.now.disk.files) (F.Log.mark disk.now.disk.files) (F.Log.may_leave disk.now.disk.files) from.state (F.seen after.now)
        (F.was before.now) (F.has before.now) (F.was after.now) (F.has after.now)
        → SeesAround (F.seen after.now) from.state files then → F.Log.contents disk.now.disk.files ≡ Some now.log → F.Log.mark disk.now.disk.files ≡ Some now.mark
        → Stands from.link es (from.link.number + length es) now
        → ((c : Option (List ℕ)) → (c ≡ then (Log from.state)) ⊎ MayLeave (F.was after.now) (F.has after.now) (Log from.state) c → HasThese es (ended (bytes_in c)))
        → from.state ≢ Some (last_link from.link es).number → AreDue d t (last_link from.link es) (F.was after.now) (F.has after.now) then }
{}
