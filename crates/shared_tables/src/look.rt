//! The last look of a session at a table.

ghost use Rattle.std.specs.Prelude.{◌≡◌, ◌≤◌, ◌↔◌, ◌⊎◌, IfOk, IsTrue, None, Some, length, replicate};
ghost use Rattle.shared_tables.specs.Stored.{asked_command};

use crate::line::kept;
use crate::stored::Asked;
use arrayvec::ArrayVec;
use std::alloc::{AllocError, Global};
use std::marker::Model;
use std::mem::{replace, swap};
use std::sync::Arc;
use table_cmd::Command;

/// A command that was answered, with the number of writes then, and how the answer began.
#[derive(Drop)]
pub(crate) struct Answered {
    pub(crate) number: u64,
    pub(crate) command: Asked,
    pub(crate) answer: ArrayVec<u8, 256>,
}

impl Model for Answered {
    ghost use Rattle.shared_tables.specs.Journal.{AnsweredData};
    ghost use Rattle.shared_tables.specs.Stored.{asked_command};

    ghost Value = { AnsweredData };

    ghost view = { λ a. record { number = a.number; command = asked_command a.command; answer = a.answer.items } };
}

impl Answered {
    /// The command.
    pub(crate) fn command(&self) -> &Command
        ensures { result.now ≡ self.now.command }
    {
        self.command.command()
    }

    // What was answered to a command at this number of writes, in place of what this is.
    fn set(&mut self, number: u64, command: Asked, answer: &[u8])
        requires { length answer.now ≤ 256 }
        ensures { self.new ≡ record { number = number; command = asked_command command; answer = answer.now } }
    {
        self.number = number;
        drop(replace(&mut self.command, command));
        self.answer.clear();
        self.answer.try_extend_from_slice(answer).unwrap();
    }
    /// Whether the other is the same.
    fn is_same(&self, other: &Answered) -> bool
        ensures { IsTrue result ↔ (self.now ≡ other.now) }
    {
        self.number == other.number
            && self.answer.as_slice() == other.answer.as_slice()
            && self.command().is_same(other.command())
    }
}

/// Puts a look in its room, in place of the one before.
pub(crate) fn put_look(look: &mut Option<Answered>, number: u64, command: Asked, answer: &[u8])
    requires { length answer.now ≤ 256 }
    ensures { look.new ≡ Some (record { number = number; command = asked_command command; answer = answer.now }) }
{
    if let Some(look) = look {
        look.set(number, command, answer);
        return;
    }
    let first = Answered {
        number,
        command,
        answer: kept(answer),
    };
    drop(look.replace(first));
}

/// The last look of a session at a table, if there is one, and the room for the next one. The table has the last one too, in the
/// same memory, and lets go of it when it is told the next one. So the room is the pass's alone, but where the pass looks at
/// tables of two sets by turns.
#[derive(Drop)]
pub(crate) struct Looks {
    pub(crate) last: Arc<Option<Answered>>,
    pub(crate) next: Arc<Option<Answered>>,
}

/// A look of a session, if there is one, as its table has it.
#[derive(Drop)]
pub(crate) struct KeptLook {
    look: Arc<Option<Answered>>,
}

impl Model for KeptLook {
    ghost use Rattle.std.specs.Prelude.{Option};
    ghost use Rattle.shared_tables.specs.Journal.{AnsweredData};

    ghost Value = { Option AnsweredData };

    ghost view = { λ k. k.look.value };
}

impl Looks {
    /// No look yet.
    pub(crate) fn new(alloc: Global) -> Result<Looks, AllocError>
        ensures { IfOk result (λ looks. looks.last.value ≡ None) }
    {
        Ok(Looks {
            last: Arc::new(alloc, None)?,
            next: Arc::new(alloc, None)?,
        })
    }

    /// Makes the room the pass's alone: in new memory, where a table has it too. O(1).
    pub(crate) fn make_room(&mut self, alloc: Global) -> Result<(), AllocError>
        ensures { self.new.last.value ≡ self.old.last.value }
    {
        if Arc::strong_count(&self.next) > 1 {
            self.next = Arc::new(alloc, None)?;
        }
        Ok(())
    }

    /// Takes what stands in the room as the last look, which the table is told. O(1).
    pub(crate) fn turn(&mut self, kept: &mut KeptLook)
        ensures last { self.new.last.value ≡ self.old.next.value }
        ensures kept { (kept.new ≡ self.old.next.value) ⊎ (kept.new ≡ kept.old) }
    {
        swap(&mut self.last, &mut self.next);
        if let Ok(look) = Arc::try_clone(&self.last) {
            drop(replace(&mut kept.look, look));
        }
    }
}

impl KeptLook {
    /// No look of so many sessions. O(sessions).
    pub(crate) fn none(alloc: Global, workers: u32) -> Result<Vec<KeptLook>, AllocError>
        ensures { IfOk result (λ looks. looks.items ≡ replicate workers None) }
    {
        let none = Arc::new(alloc, None)?;
        let mut looks = Vec::with_capacity(alloc, workers as usize)?;
        for _ in 0..workers {
            let look = Arc::try_clone(&none)?;
            looks.push(KeptLook { look })?;
        }
        Ok(looks)
    }

    /// Whether it is this one. O(length of its command).
    pub(crate) fn is(&self, look: &Answered) -> bool
        ensures { IsTrue result → self.now ≡ Some look.now }
    {
        match &*self.look {
            Some(kept) => kept.is_same(look),
            None => false,
        }
    }
}
