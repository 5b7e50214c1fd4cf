//! The journals, once they are what the passes know of them.

ghost use Rattle.std.specs.Prelude.{◌≡◌, IfOk, IfErr};
ghost use Rattle.shared_tables.specs.Journals.{AreJournals, Gathered, Mismatches};

use crate::fault::GatherWhy;
use crate::journals::{Journals, UncomparedJournals};
use crate::pass::Pass;
use crate::shared::{Gate, Shared};
use std::alloc::Global;

/// The tables and the passes, handed back.
#[derive(Drop)]
pub struct GatherFault<G: Gate> {
    pub shared: Shared<G>,
    pub passes: Vec<Pass>,
    pub why: GatherWhy,
}

/// Takes the journals out, where they are what the passes know of them: each session's entries are its pass's writes, and
/// each pass's last look fits. Otherwise it hands all back.
///
/// A pass's last look is compared with the one that the table has of its session, which takes no memory. Where it is another
/// one, as of a pass of other tables, it takes a second table, the replay of the entries before it, what its command takes, and
/// an answer of more than 512 bytes. O(tables · sessions · (passes + entries)), and a replay for each such look.
pub fn gather<G: Gate + Drop>(
    alloc: Global,
    shared: Shared<G>,
    passes: Vec<Pass>,
) -> Result<Journals, GatherFault<G>>
    ensures schema { IfOk result (λ journals. journals.schema ≡ shared.schema) }
    ensures gathered { IfOk result (λ journals. Gathered journals.schema shared.workers journals.tables passes.items) }
    ensures back { IfErr result (λ fault. (fault.shared ≡ shared) × (fault.passes.items ≡ passes.items)) }
    ensures mismatch { IfErr result (λ fault. Mismatches shared passes.items fault.why) }
{
    let mut opened = shared.open();
    match opened.fault(alloc, &passes) {
        None => Ok(opened.into_journals()),
        Some(why) => Err(GatherFault {
            shared: opened.lock(),
            passes,
            why,
        }),
    }
}

impl<G: Gate + Drop> GatherFault<G> {
    /// The journals as they stand, where memory was refused before they were compared with what the passes know. Takes no
    /// memory. O(tables).
    ///
    /// It hands the fault back where they do not agree. So it does where a lock held another table than the schema's, which
    /// no call can bring about.
    pub fn into_uncompared(self) -> Result<UncomparedJournals, GatherFault<G>>
        ensures memory { IfOk result (λ _. self.why ≡ GatherWhy.Memory) }
        ensures schema { IfOk result (λ journals. journals.schema ≡ self.shared.schema) }
        ensures legal { IfOk result (λ journals. AreJournals journals.schema self.shared.workers journals.tables) }
        ensures back { IfErr result (λ fault. (fault.shared ≡ self.shared) × (fault.passes.items ≡ self.passes.items) × (fault.why ≡ self.why)) }
    {
        if self.why != GatherWhy::Memory {
            return Err(self);
        }
        let GatherFault {
            shared,
            passes,
            why,
        } = self;
        let opened = shared.open();
        if opened.are_of_schema() {
            return Ok(UncomparedJournals::new(opened.into_journals()));
        }
        Err(GatherFault {
            shared: opened.lock(),
            passes,
            why,
        })
    }
}
