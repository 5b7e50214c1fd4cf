//! Tables under names, and passes.

use crate::again::{answer_after, text_of};
use crate::narrow::takes_fronts;
use crate::report::Report;
use crate::sending::{Holder, call_line, in_four, step_lines};
use crate::serving::serve_kept;
use crate::threads::tell_threads;
use crate::told::{tell_journals, tell_uncompared, tell_whether, tell_why, tell_written};
use crate::words::first_word;
use schema_file::read_schema;
use shared_tables::{GatherFault, GatherWhy, Journals, OpenGate, Pass, Shared, gather};
use std::alloc::{AllocError, Global};
use std::sync::Wait;
use std::thread::Threads;
use table_schema::{Schema, SchemaFault, builtin};

// The most passes that are gathered.
const MAX_PASSES: usize = 16;

// Tables behind locks, or what was gathered of them.
#[derive(Drop)]
struct Set {
    name: Vec<u8>,
    shared: Option<Shared<OpenGate>>,
    journals: Option<Journals>,
}

/// Tables under names, and passes under theirs.
#[derive(Drop)]
pub struct Hall {
    alloc: Global,
    schema: Vec<u8>,
    has_schema: bool,
    sets: Vec<Set>,
    holders: Vec<Holder>,
}

// The passes of these holders.
fn passes_of(alloc: Global, holders: Vec<Holder>) -> Result<(Vec<Vec<u8>>, Vec<Pass>), AllocError> {
    let mut names = Vec::new(alloc);
    let mut passes = Vec::new(alloc);
    for holder in holders {
        let Holder { name, pass, .. } = holder;
        names.push(name)?;
        passes.push(pass)?;
    }
    Ok((names, passes))
}

// How many sessions a digit says.
fn sessions_of(word: &[u8]) -> u32 {
    match word {
        [digit @ b'1'..=b'9'] => u32::from(*digit - b'0'),
        _ => 1,
    }
}

impl Hall {
    /// No tables.
    pub fn new(alloc: Global) -> Hall {
        Hall {
            alloc,
            schema: Vec::new(alloc),
            has_schema: false,
            sets: Vec::new(alloc),
            holders: Vec::new(alloc),
        }
    }

    /// Takes a line of the input.
    pub fn take<R: Threads + Wait + Sync>(
        &mut self,
        rt: &R,
        line: &[u8],
        report: &mut Report,
    ) -> Result<(), AllocError> {
        if !self.has_schema {
            return self.take_schema(line);
        }
        let (verb, rest) = first_word(line);
        if verb == b"later".as_slice() {
            return self.keep_line(rest, report);
        }
        report.push(line)?;
        report.text("\n")?;
        self.carry_out(rt, verb, rest, report)
    }

    fn take_schema(&mut self, line: &[u8]) -> Result<(), AllocError> {
        if line == b"---".as_slice() {
            self.has_schema = true;
            return Ok(());
        }
        self.schema.extend_from_slice(line)?;
        self.schema.push(b'\n')?;
        Ok(())
    }

    fn schema(&self) -> Result<Schema, SchemaFault> {
        read_schema(self.alloc, &self.schema)
    }

    fn carry_out<R: Threads + Wait + Sync>(
        &mut self,
        rt: &R,
        verb: &[u8],
        rest: &[u8],
        report: &mut Report,
    ) -> Result<(), AllocError> {
        let (set, rest) = first_word(rest);
        if verb == b"open".as_slice() {
            match self.schema() {
                Ok(schema) => self.open(schema, set, sessions_of(rest), report),
                Err(SchemaFault::Memory) => report.text("  memory\n"),
                Err(_) => Err(AllocError),
            }
        } else if verb == b"builtin".as_slice() {
            match builtin(self.alloc) {
                Ok(schema) => self.open(schema, set, sessions_of(rest), report),
                Err(_) => report.text("  memory\n"),
            }
        } else if verb == b"write".as_slice() {
            self.write(set, report)
        } else if verb == b"gather".as_slice() {
            self.gather(set, rest, report)
        } else if verb == b"uncompared".as_slice() {
            self.uncompared(set, report)
        } else if verb == b"again".as_slice() {
            self.again(set, rest, report)
        } else if verb == b"narrow".as_slice() {
            self.narrow(set, report)
        } else if verb == b"join".as_slice() {
            self.join(rt, set, rest, report)
        } else if verb == b"serve".as_slice() {
            self.serve(rt, set, rest, report)
        } else if verb == b"alone".as_slice() {
            self.alone(set, report)
        } else if verb == b"threads".as_slice() {
            let schema = self.schema().map_err(|_| AllocError)?;
            tell_threads(rt, self.alloc, schema, report)
        } else {
            self.call(rt, verb, set, rest, report)
        }
    }

    fn open(
        &mut self,
        schema: Schema,
        name: &[u8],
        sessions: u32,
        report: &mut Report,
    ) -> Result<(), AllocError> {
        let alloc = self.alloc;
        let Ok((shared, passes, _)) = Shared::new(alloc, schema, sessions, OpenGate) else {
            return report.text("  memory\n");
        };
        self.sets.push(Set {
            name: name.to_vec(alloc)?,
            shared: Some(shared),
            journals: None,
        })?;
        for (digit, pass) in b"0123456789".iter().zip(passes) {
            let mut name = name.to_vec(alloc)?;
            name.push(*digit)?;
            self.holders.push(Holder::new(alloc, name, pass))?;
        }
        Ok(())
    }

    fn set_of(&self, name: &[u8]) -> usize {
        self.sets
            .iter()
            .position(|set| set.name.as_slice() == name)
            .unwrap_or(self.sets.len())
    }

    fn holder_of(&self, name: &[u8]) -> usize {
        self.holders
            .iter()
            .position(|holder| holder.name.as_slice() == name)
            .unwrap_or(self.holders.len())
    }

    fn call(
        &mut self,
        rt: &impl Wait,
        pass: &[u8],
        set: &[u8],
        line: &[u8],
        report: &mut Report,
    ) -> Result<(), AllocError> {
        let (holder, set) = (self.holder_of(pass), self.set_of(set));
        let Some(holder) = self.holders.get_mut(holder) else {
            return report.text("  no pass\n");
        };
        let Some(shared) = self.sets.get(set).and_then(|set| set.shared.as_ref()) else {
            return report.text("  no tables\n");
        };
        call_line(self.alloc, rt, shared, &mut holder.pass, line, report)
    }

    // Serves what was kept for a pass.
    fn serve(
        &mut self,
        rt: &impl Wait,
        set: &[u8],
        pass: &[u8],
        report: &mut Report,
    ) -> Result<(), AllocError> {
        let (holder, set) = (self.holder_of(pass), self.set_of(set));
        let Some(holder) = self.holders.get_mut(holder) else {
            return report.text("  no pass\n");
        };
        let Some(shared) = self.sets.get(set).and_then(|set| set.shared.as_ref()) else {
            return report.text("  no tables\n");
        };
        serve_kept(self.alloc, rt, shared, holder, report)
    }

    fn keep_line(&mut self, words: &[u8], report: &mut Report) -> Result<(), AllocError> {
        let (pass, line) = first_word(words);
        let holder = self.holder_of(pass);
        let Some(holder) = self.holders.get_mut(holder) else {
            return report.text("  no pass\n");
        };
        holder.kept.push(line.to_vec(self.alloc)?)?;
        Ok(())
    }

    // Lets four threads send what was kept for the passes of these names.
    fn join<R: Threads + Wait + Sync>(
        &mut self,
        rt: &R,
        set: &[u8],
        holders: &[u8],
        report: &mut Report,
    ) -> Result<(), AllocError> {
        let holders = self.take_holders(holders)?;
        let Some(shared) = self
            .sets
            .get(self.set_of(set))
            .and_then(|set| set.shared.as_ref())
        else {
            return report.text("  no tables\n");
        };
        for sent in in_four(rt, self.alloc, shared, holders)? {
            report.push(sent.told.bytes())?;
            self.holders.push(sent.holder)?;
        }
        Ok(())
    }

    fn alone(&self, pass: &[u8], report: &mut Report) -> Result<(), AllocError> {
        let schema = self.schema().map_err(|_| AllocError)?;
        let Some(holder) = self.holders.get(self.holder_of(pass)) else {
            return report.text("  no pass\n");
        };
        step_lines(self.alloc, &schema, &holder.kept, report)
    }

    // Takes the passes of these names out.
    fn take_holders(&mut self, names: &[u8]) -> Result<Vec<Holder>, AllocError> {
        let mut taken = Vec::new(self.alloc);
        let mut rest = names;
        for _ in 0..MAX_PASSES {
            let (name, after) = first_word(rest);
            rest = after;
            let at = self.holder_of(name);
            if at < self.holders.len() {
                taken.push(self.holders.remove(at))?;
            }
        }
        Ok(taken)
    }

    fn gather(
        &mut self,
        name: &[u8],
        holders: &[u8],
        report: &mut Report,
    ) -> Result<(), AllocError> {
        let (names, passes) = passes_of(self.alloc, self.take_holders(holders)?)?;
        let at = self.set_of(name);
        let Some(set) = self.sets.get_mut(at) else {
            return report.text("  no tables\n");
        };
        let Some(shared) = set.shared.take() else {
            return report.text("  no tables\n");
        };
        match gather(self.alloc, shared, passes) {
            Ok(journals) => {
                tell_journals(self.alloc, &journals, report)?;
                set.journals = Some(journals);
                Ok(())
            }
            Err(fault) => self.put_back(at, names, fault, report),
        }
    }

    // Hands out the journals as they stand, as where memory was refused. Where a mismatch was found they are not handed out.
    fn uncompared(&mut self, name: &[u8], report: &mut Report) -> Result<(), AllocError> {
        let at = self.set_of(name);
        let Some(shared) = self.sets.get_mut(at).and_then(|set| set.shared.take()) else {
            return report.text("  no tables\n");
        };
        let mismatch = GatherFault {
            shared,
            passes: Vec::new(self.alloc),
            why: GatherWhy::Mismatch {
                table: 0,
                session: 0,
            },
        };
        let Err(GatherFault { shared, passes, .. }) = mismatch.into_uncompared() else {
            return report.text("  handed out at a mismatch\n");
        };
        let memory = GatherFault {
            shared,
            passes,
            why: GatherWhy::Memory,
        };
        match memory.into_uncompared() {
            Ok(journals) => tell_uncompared(self.alloc, &journals, report),
            Err(fault) => self.put_back(at, Vec::new(self.alloc), fault, report),
        }
    }

    fn put_back(
        &mut self,
        at: usize,
        names: Vec<Vec<u8>>,
        fault: GatherFault<OpenGate>,
        report: &mut Report,
    ) -> Result<(), AllocError> {
        let GatherFault {
            shared,
            passes,
            why,
        } = fault;
        if let Some(set) = self.sets.get_mut(at) {
            set.shared = Some(shared);
        }
        for (name, pass) in names.into_iter().zip(passes) {
            self.holders.push(Holder::new(self.alloc, name, pass))?;
        }
        tell_why(why, report)
    }

    fn write(&self, set: &[u8], report: &mut Report) -> Result<(), AllocError> {
        let set = self.sets.get(self.set_of(set));
        let Some(journals) = set.and_then(|set| set.journals.as_ref()) else {
            return report.text("  no journals\n");
        };
        tell_written(self.alloc, journals, report)
    }

    fn narrow(&self, set: &[u8], report: &mut Report) -> Result<(), AllocError> {
        let set = self.sets.get(self.set_of(set));
        let Some(journals) = set.and_then(|set| set.journals.as_ref()) else {
            return report.text("  no journals\n");
        };
        let text = text_of(self.alloc, journals)?;
        let fronts = takes_fronts(self.alloc, journals, &text)?;
        tell_whether("  narrow writers take fronts: ", fronts, report)
    }

    fn again(&self, set: &[u8], command: &[u8], report: &mut Report) -> Result<(), AllocError> {
        let set = self.sets.get(self.set_of(set));
        let Some(journals) = set.and_then(|set| set.journals.as_ref()) else {
            return report.text("  no journals\n");
        };
        report.text("  ")?;
        report.push(&answer_after(self.alloc, journals, command)?)
    }
}
