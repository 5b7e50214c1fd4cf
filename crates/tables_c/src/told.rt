//! What a call on records tells.

ghost use Rattle.std.specs.Prelude.{◌≡◌};
ghost use Rattle.tables_c.specs.Rows.{Puts, PutsHandle, found_told, handle_of, handle_told, in_the_way, position_told, record_told, refusal_told, status_told};

use crate::status::{BANNED, NONE, OK, refusal_number};
use container_model::{Handle, Why};

/// A record's handle.
#[repr(C)]
#[derive(Clone, Copy)]
pub struct RowHandle {
    pub stamp: u64,
    pub slot: u32,
}

impl RowHandle {
    pub(crate) fn of(handle: Handle) -> RowHandle
        ensures { result ≡ handle_told handle }
    {
        RowHandle {
            stamp: handle.stamp,
            slot: handle.slot,
        }
    }

    pub(crate) fn handle(self) -> Handle
        ensures { result ≡ handle_of self }
    {
        Handle {
            slot: self.slot,
            stamp: self.stamp,
        }
    }
}

/// A status, and a record and an index where the call tells such.
#[derive(Clone, Copy)]
pub(crate) struct Told {
    pub(crate) status: u8,
    pub(crate) handle: Option<Handle>,
    pub(crate) index: Option<usize>,
}

impl Told {
    /// A status alone.
    pub(crate) fn status(status: u8) -> Told
        ensures { result ≡ status_told status }
    {
        Told {
            status,
            handle: None,
            index: None,
        }
    }

    /// A record.
    pub(crate) fn record(handle: Handle) -> Told
        ensures { result ≡ record_told handle }
    {
        Told {
            status: OK,
            handle: Some(handle),
            index: None,
        }
    }

    /// A record, or that there is none.
    pub(crate) fn position(found: Option<Handle>) -> Told
        ensures { result ≡ position_told found }
    {
        match found {
            Some(handle) => Told::record(handle),
            None => Told::status(NONE),
        }
    }

    /// The record that is in the way at a unique index.
    pub(crate) fn in_the_way(status: u8, index: usize, by: Handle) -> Told
        ensures { result ≡ in_the_way status index by }
    {
        Told {
            status,
            handle: Some(by),
            index: Some(index),
        }
    }

    /// Why the container refused.
    pub(crate) fn refusal(why: Why) -> Told
        ensures { result ≡ refusal_told why }
    {
        match why {
            Why::Banned { index, by } => Told::in_the_way(BANNED, index, by),
            why => Told::status(refusal_number(why)),
        }
    }

    /// The record that was found, or why none was.
    pub(crate) fn found(found: Result<Option<Handle>, Why>) -> Told
        ensures { result ≡ found_told found }
    {
        match found {
            Ok(found) => Told::position(found),
            Err(why) => Told::refusal(why),
        }
    }

    /// Puts the handle where there is one, and answers the status.
    pub(crate) fn put_handle(self, handle: &mut RowHandle) -> u8
        ensures { PutsHandle self result handle.old handle.new }
    {
        if let Some(told) = self.handle {
            *handle = RowHandle::of(told);
        }
        self.status
    }

    /// Puts the handle and the index where there are such, and answers the status.
    pub(crate) fn put(self, handle: &mut RowHandle, index: &mut usize) -> u8
        ensures { Puts self result handle.old handle.new index.old index.new }
    {
        if let Some(told) = self.index {
            *index = told;
        }
        self.put_handle(handle)
    }
}
