//! The handle of one container that a C program keeps. What C is passed has no parameter for what it owns, so it is not a `Handle`.

ghost use Rattle.std.specs.Prelude.{◌≡◌, None, Some, option_map};
ghost use Rattle.table_terms.specs.Table.{TableState};

use crate::parts::Parts;
use std::alloc::Global;
use std::marker::Model;
use std::{mem, ptr};
use table_records::Records;

/// A handle, open or closed. A C program starts it as zeros, copies it nowhere, and writes nothing to it.
#[repr(C)]
pub struct Rows {
    at: *mut u8,
    is_open: bool,
    ghost value: { TableState },
}

impl Model for Rows {
    ghost use Rattle.std.specs.Box.Ownership.{box_owns};
    ghost use Rattle.libc.specs.Heap.{chunk, when};
    ghost use Rattle.table_records.specs.contracts.records.Records.{the_row};

    ghost also_owns = { λ h. when h.is_open (box_owns chunk the_row h.at h.value) };
}

impl Rows {
    ghost use Rattle.tables_c.specs.Rows.{led};

    fn closed() -> Rows
        ensures { led result ≡ None }
    {
        Rows {
            at: ptr::null_mut(),
            is_open: false,
        }
    }

    fn of_parts(parts: Parts<Records, Global>) -> Rows
        ensures { led result ≡ Some parts.value }
    {
        let Parts { at, alloc: _ } = parts;
        Rows {
            at: at as *mut u8,
            is_open: true,
        }
    }

    fn into_parts(self, alloc: Global) -> Option<Parts<Records, Global>>
        ensures { option_map (λ parts. parts.value) result ≡ led self }
    {
        let Rows { at, is_open } = self;
        if is_open {
            return Some(Parts {
                at: at as *mut Records,
                alloc,
            });
        }
        None
    }

    fn into_box(self, alloc: Global) -> Option<Box<Records>>
        ensures { option_map (λ held. held.value) result ≡ led self }
    {
        match self.into_parts(alloc) {
            Some(parts) => Some(parts.into_box()),
            None => None,
        }
    }

    // Takes the records out, and leaves the handle closed.
    pub(crate) fn take(&mut self, alloc: Global) -> Option<Box<Records>>
        ensures taken { option_map (λ held. held.value) result ≡ led self.old }
        ensures closed { led self.new ≡ None }
    {
        mem::replace(self, Rows::closed()).into_box(alloc)
    }

    // Leads to these records from now on.
    pub(crate) fn put(&mut self, alloc: Global, held: Box<Records>)
        ensures { led self.new ≡ Some held.value }
    {
        let new = Rows::of_parts(Parts::of(held));
        drop(mem::replace(self, new).into_box(alloc));
    }
}
