//! Values in and out of locks. This is the one place where they go in and out, and it knows no more of them than that they are
//! values: it can neither make one nor change one.

ghost use Rattle.std.specs.Prelude.{◌≡◌, ◌+◌, ◌<◌, ◌≤◌, IfOk, length, vec_len, vec_capacity};

use std::alloc::{AllocError, Global};
use std::marker::Model;
use std::snapshot::Snapshot;
use std::sync::Mutex;

/// Values, each behind a lock of its own, with the room for them out of their locks. A clause sees how many they are.
#[derive(Drop)]
pub(crate) struct Locked<T: Drop> {
    locks: Vec<Mutex<T>>,
    room: Vec<T>,
}

impl<T: Drop> Model for Locked<T> {
    ghost use Rattle.std.specs.Prelude.{◌≡◌, ◌≤◌, ℕ, length, vec_len, vec_capacity};

    ghost Value = { ℕ };

    ghost view = { λ l. length l.locks.items };

    ghost invariant = { λ l. (vec_len l.room ≡ 0) × (vec_len l.locks ≤ vec_capacity l.room) };
}

/// Values out of their locks, in the order of these, with the room for them back in locks.
#[derive(Drop)]
pub(crate) struct Opened<T: Drop> {
    values: Vec<T>,
    room: Vec<Mutex<T>>,
}

impl<T: Drop> Model for Opened<T> {
    ghost use Rattle.std.specs.Prelude.{◌≡◌, ◌≤◌, List, vec_len, vec_capacity};

    ghost Value = { List T };

    ghost view = { λ o. o.values.items };

    ghost invariant = { λ o. (vec_len o.room ≡ 0) × (vec_len o.values ≤ vec_capacity o.room) };
}

// Moves values out of their locks, and turns them round.
fn open_all<T: Drop>(locks: &mut Vec<Mutex<T>>, values: &mut Vec<T>)
    requires { vec_len values.old + vec_len locks.old ≤ vec_capacity values.old }
    ensures locks { vec_len locks.new ≡ 0 }
    ensures room { vec_capacity locks.new ≡ vec_capacity locks.old }
    ensures values { vec_len values.new ≡ vec_len values.old + vec_len locks.old }
{
    while let Some(lock) = locks.pop() {
        values.push_reserved(lock.into_inner());
    }
    values.reverse();
}

// Moves values into locks.
fn lock_all<T: Drop>(values: &mut Vec<T>, locks: &mut Vec<Mutex<T>>)
    requires { vec_len locks.old + vec_len values.old ≤ vec_capacity locks.old }
    ensures values { vec_len values.new ≡ 0 }
    ensures room { vec_capacity values.new ≡ vec_capacity values.old }
    ensures locks { vec_len locks.new ≡ vec_len locks.old + vec_len values.old }
{
    values.reverse();
    while let Some(value) = values.pop() {
        locks.push_reserved(Mutex::new(value));
    }
}

impl<T: Drop> Locked<T> {
    /// Puts values behind locks, and shows those that went in. O(values).
    pub(crate) fn new(
        alloc: Global,
        values: Vec<T>,
    ) -> Result<(Locked<T>, Snapshot<Vec<T>>), AllocError>
        ensures locked { IfOk result (λ made. made.0 ≡ length values.items) }
        ensures begun { IfOk result (λ made. made.1.value.items ≡ values.items) }
    {
        let begun = Snapshot::of(&values);
        let opened = Opened {
            room: Vec::with_capacity(alloc, values.len())?,
            values,
        };
        Ok((opened.lock(), begun))
    }

    /// The lock of the value at a place. O(1).
    pub(crate) fn at(&self, place: usize) -> &Mutex<T>
        requires { place < self.now }
    {
        &self.locks[place]
    }

    /// The values, out of their locks and in the order of these. Takes no memory. O(values).
    pub(crate) fn open(self) -> Opened<T>
        ensures { length result ≡ self }
    {
        let Locked {
            mut locks,
            mut room,
        } = self;
        open_all(&mut locks, &mut room);
        Opened {
            values: room,
            room: locks,
        }
    }
}

impl<T: Drop> Opened<T> {
    /// The values. O(1).
    pub(crate) fn values(&self) -> &[T]
        ensures { result.now ≡ self.now }
    {
        &self.values
    }

    /// The values, behind locks again and in the same order. Takes no memory. O(values).
    pub(crate) fn lock(self) -> Locked<T>
        ensures { result ≡ length self }
    {
        let Opened {
            mut values,
            mut room,
        } = self;
        lock_all(&mut values, &mut room);
        Locked {
            locks: room,
            room: values,
        }
    }

    /// The values for good.
    pub(crate) fn into_values(self) -> Vec<T>
        ensures { result.items ≡ self }
    {
        let Opened { values, room: _ } = self;
        values
    }
}
