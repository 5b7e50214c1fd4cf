//! A log that was read, before anything of its disk is changed.

ghost use Rattle.std.specs.Prelude.{◌≡◌, ◌⊎◌, ◌-◌, ℕ, List, None, Some, IfErr, IfOk, option_map, take};
ghost use Rattle.table_engine.specs.Devices.{raised};
ghost use Rattle.table_schema.specs.Shape.{TableShape};
ghost use Rattle.table_step.specs.Step.{new_table};
ghost use Rattle.table_log.specs.Loaded.{IsReplayed, IsUntouched, settled_log};
ghost use Rattle.table_log.specs.Loading.{IsUnloaded, failures_after_why};

use crate::disk::Disk;
use crate::fault::{OpenFault, OpenWhy};
use crate::logged::LoggedTable;
use crate::replaying::{Replayed, replay};
use std::alloc::Global;
use std::marker::Model;
use table_reply::Out;
use table_schema::TableSpec;
use table_step::Table;

/// The table that a disk's log leaves, and how many bytes stand behind its last newline. Nothing of the disk is changed yet.
#[derive(Drop)]
pub struct Loaded<D: Disk> {
    // The declaration of the empty table that the log begins with.
    declared: Option<TableSpec>,
    table: Table,
    disk: D,
    torn: u64,
    line: Out,
    alloc: Global,
}

impl<D: Disk> Model for Loaded<D> {
    ghost use Rattle.table_log.specs.Loaded.{IsReady, LoadedData};

    ghost Value = { LoadedData };

    ghost view = { λ l. record { declared = l.declared; table = l.table; torn = l.torn; bytes = D.contents l.disk; size = D.size l.disk; synced = D.synced l.disk; failures = D.failures l.disk } };

    ghost invariant = { λ l. IsReady (record { declared = l.declared; table = l.table; torn = l.torn; bytes = D.contents l.disk; size = D.size l.disk; synced = D.synced l.disk; failures = D.failures l.disk }) };
}

/// A log that was opened, and how many bytes were cut off at its end.
#[derive(Drop)]
pub struct Opened<D: Disk> {
    pub logged: LoggedTable<D>,
    pub torn: u64,
}

// Reads a disk's log on a table: the empty one of a declaration, or another.
fn load_from<D: Disk>(
    alloc: Global,
    start: Table,
    declared: Option<TableSpec>,
    disk: D,
) -> Result<Loaded<D>, OpenFault<D>>
    requires { (shape : TableShape) → declared ≡ Some shape → start ≡ new_table shape }
    ensures loaded { IfOk result (λ loaded. (bytes : List ℕ) → D.contents disk ≡ Some bytes → IsReplayed start bytes loaded.torn loaded.table) }
    ensures untouched { IfOk result (λ loaded. IsUntouched declared (D.contents disk) (D.size disk) (D.synced disk) (D.failures disk) loaded) }
    ensures unloaded { IfErr result (λ fault. (bytes : List ℕ) → D.contents disk ≡ Some bytes → IsUnloaded start bytes fault.why) }
    ensures contents { IfErr result (λ fault. D.contents fault.disk ≡ D.contents disk) }
    ensures size { IfErr result (λ fault. D.size fault.disk ≡ D.size disk) }
    ensures synced { IfErr result (λ fault. D.synced fault.disk ≡ D.synced disk) }
    ensures failures { IfErr result (λ fault. D.failures fault.disk ≡ failures_after_why fault.why (D.failures disk)) }
{
    let Ok(line) = Out::new(alloc) else {
        return Err(OpenFault {
            disk,
            why: OpenWhy::Memory,
        });
    };
    let mut disk = disk;
    match replay(alloc, start, &mut disk) {
        Ok(Replayed { table, torn }) => Ok(Loaded {
            declared,
            table,
            disk,
            torn,
            line,
            alloc,
        }),
        Err(why) => Err(OpenFault { disk, why }),
    }
}

// An empty table, and a copy of its declaration.
#[derive(Drop)]
struct Empty {
    table: Table,
    spec: TableSpec,
}

// The empty table of a declaration.
fn new_empty(alloc: Global, spec: &TableSpec) -> Result<Empty, OpenWhy>
    ensures made { IfOk result (λ made. (made.table ≡ new_table spec.now) × (made.spec ≡ spec.now)) }
    ensures memory { IfErr result (λ why. why ≡ OpenWhy.Memory) }
{
    Ok(Empty {
        table: Table::new(alloc, spec)?,
        spec: spec.copy()?,
    })
}

impl<D: Disk> LoggedTable<D> {
    /// Reads a disk's log into an empty table of this declaration, and changes nothing of the disk. A whole line that is no accepted
    /// write refuses the log, with its number. A log that is refused hands its disk back. O(bytes), and what the commands cost.
    pub fn load(alloc: Global, spec: &TableSpec, disk: D) -> Result<Loaded<D>, OpenFault<D>>
        ensures loaded { IfOk result (λ loaded. (bytes : List ℕ) → D.contents disk ≡ Some bytes → IsReplayed (new_table spec.now) bytes loaded.torn loaded.table) }
        ensures untouched { IfOk result (λ loaded. IsUntouched (Some spec.now) (D.contents disk) (D.size disk) (D.synced disk) (D.failures disk) loaded) }
        ensures unloaded { IfErr result (λ fault. (bytes : List ℕ) → D.contents disk ≡ Some bytes → IsUnloaded (new_table spec.now) bytes fault.why) }
        ensures contents { IfErr result (λ fault. D.contents fault.disk ≡ D.contents disk) }
        ensures size { IfErr result (λ fault. D.size fault.disk ≡ D.size disk) }
        ensures synced { IfErr result (λ fault. D.synced fault.disk ≡ D.synced disk) }
        ensures failures { IfErr result (λ fault. D.failures fault.disk ≡ failures_after_why fault.why (D.failures disk)) }
    {
        let made = match new_empty(alloc, spec) {
            Ok(made) => made,
            Err(why) => return Err(OpenFault { disk, why }),
        };
        load_from(alloc, made.table, Some(made.spec), disk)
    }

    /// Reads a disk's log as `load` does, on the table that it begins with, as a state of an earlier log leaves it.
    pub fn load_on(alloc: Global, start: Table, disk: D) -> Result<Loaded<D>, OpenFault<D>>
        ensures loaded { IfOk result (λ loaded. (bytes : List ℕ) → D.contents disk ≡ Some bytes → IsReplayed start bytes loaded.torn loaded.table) }
        ensures untouched { IfOk result (λ loaded. IsUntouched None (D.contents disk) (D.size disk) (D.synced disk) (D.failures disk) loaded) }
        ensures unloaded { IfErr result (λ fault. (bytes : List ℕ) → D.contents disk ≡ Some bytes → IsUnloaded start bytes fault.why) }
        ensures contents { IfErr result (λ fault. D.contents fault.disk ≡ D.contents disk) }
        ensures size { IfErr result (λ fault. D.size fault.disk ≡ D.size disk) }
        ensures synced { IfErr result (λ fault. D.synced fault.disk ≡ D.synced disk) }
        ensures failures { IfErr result (λ fault. D.failures fault.disk ≡ failures_after_why fault.why (D.failures disk)) }
    {
        load_from(alloc, start, None, disk)
    }
}

impl<D: Disk> Loaded<D> {
    /// The table that the whole lines leave. O(1).
    pub fn table(&self) -> &Table
        ensures { result.now ≡ self.now.table }
    {
        &self.table
    }

    /// How many bytes stand behind the last newline. O(1).
    pub fn torn(&self) -> u64
        ensures { result ≡ self.now.torn }
    {
        self.torn
    }

    /// The disk. O(1).
    pub fn disk(&self) -> &D
        ensures contents { D.contents result.now ≡ self.now.bytes }
        ensures size { D.size result.now ≡ self.now.size }
        ensures synced { D.synced result.now ≡ self.now.synced }
        ensures failures { D.failures result.now ≡ self.now.failures }
    {
        &self.disk
    }

    /// Cuts off what stands behind the last newline, and syncs the rest. Where the disk fails, it is handed back, as it was or cut.
    /// O(what the disk takes).
    pub fn settle(self) -> Result<Opened<D>, OpenFault<D>>
        ensures settled { IfOk result (λ opened. (opened.logged ≡ settled_log self) × (opened.torn ≡ self.torn)) }
        ensures why { IfErr result (λ fault. fault.why ≡ OpenWhy.Disk) }
        ensures left { IfErr result (λ fault. (D.contents fault.disk ≡ self.bytes) ⊎ (D.contents fault.disk ≡ option_map (take (self.size - self.torn)) self.bytes)) }
        ensures failures { IfErr result (λ fault. D.failures fault.disk ≡ raised self.failures) }
    {
        let Loaded {
            declared,
            table,
            disk,
            torn,
            line,
            alloc,
        } = self;
        let mut disk = disk;
        match disk.cut(disk.size() - torn) {
            Ok(()) => Ok(Opened {
                logged: LoggedTable {
                    declared,
                    table,
                    disk,
                    line,
                    is_over: false,
                    alloc,
                },
                torn,
            }),
            Err(_) => Err(OpenFault {
                disk,
                why: OpenWhy::Disk,
            }),
        }
    }
}
