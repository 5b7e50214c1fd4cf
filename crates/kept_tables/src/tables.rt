//! Tables with their logs behind one stream of lines.

ghost use Rattle.std.specs.Prelude.{◌≡◌, [], false, IfOk};
ghost use Rattle.table_engine.specs.Lines.{short};
ghost use Rattle.kept_tables.specs.Lines.{EndsLine, TakesPiece};
ghost use Rattle.kept_tables.specs.Syncs.{Syncs};

use crate::stream::{Stop, StopWhy, end_line, feed_piece, is_of_log};
use crate::syncing::sync_all;
use command_lines::LineReader;
use std::alloc::{AllocError, Global};
use std::marker::Model;
use table_engine::LineCutter;
use table_log::{Disk, LoggedTable, Over};
use table_reply::Out;

/// Tables with their logs, and one stream of lines.
#[derive(Drop)]
pub struct KeptTables<D: Disk> {
    tables: Vec<LoggedTable<D>>,
    reader: LineReader,
    cutter: Box<LineCutter>,
    // Whether the log of a line's table was over.
    is_over: bool,
}

impl<D: Disk> Model for KeptTables<D> {
    ghost use Rattle.kept_tables.specs.Lines.{KeptData};

    ghost Value = { KeptData };

    ghost view = { λ k. record { tables = k.tables.items; unfinished = k.cutter.value.unfinished; is_over = k.is_over } };
}

impl<D: Disk> KeptTables<D> {
    /// These tables, where no line is begun.
    pub fn new(alloc: Global, tables: Vec<LoggedTable<D>>) -> Result<KeptTables<D>, AllocError>
        ensures { IfOk result (λ kept. (kept.tables ≡ tables.items) × (kept.unfinished ≡ short []) × (kept.is_over ≡ false)) }
    {
        let reader = LineReader::new(alloc)?;
        let cutter = Box::new(alloc, LineCutter::new())?;
        Ok(KeptTables {
            tables,
            reader,
            cutter,
            is_over: false,
        })
    }

    /// Takes the next piece of the stream, and appends the answers to the lines that it ends. An accepted write is in its table's log
    /// before it is answered, and not synced yet. At an `Err` as many bytes were taken as it says. After one that says that a log is over, nothing more is
    /// taken. O(n) for n bytes, apart from what the commands cost.
    pub fn feed(&mut self, piece: &[u8], out: &mut Out) -> Result<(), Stop>
        ensures { TakesPiece result piece.now self.old out.old self.new out.new }
    {
        if self.is_over {
            return Err(Stop {
                taken: 0,
                why: StopWhy::Over,
            });
        }
        match feed_piece(
            &mut self.reader,
            &mut self.tables,
            &mut self.cutter,
            piece,
            out,
        ) {
            Ok(()) => Ok(()),
            Err(stop) => {
                self.is_over = is_of_log(stop.why);
                Err(stop)
            }
        }
    }

    /// Takes the end of the stream, and appends the answer to a line that it ends. After an `Err` that says that a log is over, nothing more is taken.
    pub fn finish(&mut self, out: &mut Out) -> Result<(), StopWhy>
        ensures { EndsLine result self.old out.old self.new out.new }
    {
        if self.is_over {
            return Err(StopWhy::Over);
        }
        match end_line(&mut self.reader, &mut self.tables, &mut self.cutter, out) {
            Ok(()) => Ok(()),
            Err(why) => {
                self.is_over = is_of_log(why);
                Err(why)
            }
        }
    }

    /// Makes sure of all writes so far: the log of each table is synced that has bytes that are not. Stops at the first that can't be.
    pub fn sync(&mut self) -> Result<(), Over>
        ensures tables { Syncs result self.old.tables self.new.tables }
        ensures line { self.new.unfinished ≡ self.old.unfinished }
        ensures over { self.new.is_over ≡ self.old.is_over }
    {
        sync_all(&mut self.tables)
    }
}
