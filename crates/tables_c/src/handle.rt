//! The handle that a C program keeps.

ghost use Rattle.std.specs.Prelude.{◌≡◌, None, Some, option_map};
ghost use Rattle.tables_c.specs.declared.held.Held.{Held};

use crate::held::Held;
use crate::parts::Parts;
use std::alloc::Global;
use std::marker::Model;
use std::{mem, ptr};

/// A handle, open or closed. A C program starts it as zeros, copies it nowhere, and writes nothing to it.
#[repr(C)]
pub struct Handle {
    at: *mut u8,
    is_open: bool,
    ghost value: { Held },
}

impl Model for Handle {
    ghost use Rattle.std.specs.Box.Ownership.{box_owns};
    ghost use Rattle.libc.specs.Heap.{chunk, when};
    ghost use Rattle.tables_c.specs.contracts.held.Held.{the_row};

    ghost also_owns = { λ h. when h.is_open (box_owns chunk the_row h.at h.value) };
}

impl Handle {
    ghost use Rattle.tables_c.specs.Calls.{led};

    fn closed() -> Handle
        ensures { led result ≡ None }
    {
        Handle {
            at: ptr::null_mut(),
            is_open: false,
        }
    }

    fn of_parts(parts: Parts<Held, Global>) -> Handle
        ensures { led result ≡ Some parts.value }
    {
        let Parts { at, alloc: _ } = parts;
        Handle {
            at: at as *mut u8,
            is_open: true,
        }
    }

    fn into_parts(self, alloc: Global) -> Option<Parts<Held, Global>>
        ensures { option_map (λ parts. parts.value) result ≡ led self }
    {
        let Handle { at, is_open } = self;
        if is_open {
            return Some(Parts {
                at: at as *mut Held,
                alloc,
            });
        }
        None
    }

    fn into_box(self, alloc: Global) -> Option<Box<Held>>
        ensures { option_map (λ held. held.value) result ≡ led self }
    {
        match self.into_parts(alloc) {
            Some(parts) => Some(parts.into_box()),
            None => None,
        }
    }

    // Takes the tables out, and leaves the handle closed.
    pub(crate) fn take(&mut self, alloc: Global) -> Option<Box<Held>>
        ensures taken { option_map (λ held. held.value) result ≡ led self.old }
        ensures closed { led self.new ≡ None }
    {
        mem::replace(self, Handle::closed()).into_box(alloc)
    }

    // Leads to these tables from now on.
    pub(crate) fn put(&mut self, alloc: Global, held: Box<Held>)
        ensures { led self.new ≡ Some held.value }
    {
        let new = Handle::of_parts(Parts::of(held));
        drop(mem::replace(self, new).into_box(alloc));
    }
}
