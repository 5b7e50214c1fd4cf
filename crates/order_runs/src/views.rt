//! Lists of handles, one for each index.

use crate::lists::place_in;
use container_model::Handle;
use std::alloc::{AllocError, Global};

/// What the container showed last, or what it should show now.
#[derive(Drop)]
pub(crate) struct Views {
    lists: Vec<Vec<Handle>>,
}

impl Views {
    /// So many lists without handles.
    pub(crate) fn new(alloc: Global, count: usize) -> Result<Views, AllocError> {
        let mut lists = Vec::new(alloc);
        for _ in 0..count {
            lists.push(Vec::new(alloc))?;
        }
        Ok(Views { lists })
    }

    pub(crate) fn list(&self, index: usize) -> &[Handle] {
        match self.lists.get(index) {
            Some(list) => list.as_slice(),
            None => &[],
        }
    }

    pub(crate) fn set(&mut self, index: usize, list: Vec<Handle>) {
        if let Some(old) = self.lists.get_mut(index) {
            *old = list;
        }
    }

    /// Takes a record out of each list.
    pub(crate) fn take_out(&mut self, handle: Handle) {
        for list in &mut self.lists {
            if let Some(place) = place_in(list, handle) {
                if place < list.len() {
                    list.remove(place);
                }
            }
        }
    }

    pub(crate) fn take_out_all(&mut self, handles: &[Handle]) {
        for handle in handles {
            self.take_out(*handle);
        }
    }
}
