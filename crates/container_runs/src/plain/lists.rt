//! Lists of handles, one for each index.

use container_model::Handle;
use std::alloc::{AllocError, Global};

#[derive(Drop)]
pub(super) struct Lists {
    lists: Vec<Vec<Handle>>,
}

impl Lists {
    /// So many lists without handles.
    pub(super) fn new(alloc: Global, count: usize) -> Result<Lists, AllocError> {
        let mut lists = Vec::new(alloc);
        for _ in 0..count {
            lists.push(Vec::new(alloc))?;
        }
        Ok(Lists { lists })
    }

    pub(super) fn view(&self, index: usize) -> &[Handle] {
        match self.lists.get(index) {
            Some(list) => list.as_slice(),
            None => &[],
        }
    }

    pub(super) fn place(&self, index: usize, handle: Handle) -> Option<usize> {
        for (place, it) in self.view(index).iter().enumerate() {
            if *it == handle {
                return Some(place);
            }
        }
        None
    }

    /// The handle after another one.
    pub(super) fn after(&self, index: usize, handle: Handle) -> Option<Handle> {
        let place = self.place(index, handle)?;
        self.view(index).get(place.saturating_add(1)).copied()
    }

    /// Puts a handle in at a place.
    pub(super) fn enter(&mut self, index: usize, place: usize, handle: Handle) -> Option<()> {
        let list = self.lists.get_mut(index)?;
        if place > list.len() {
            return None;
        }
        list.insert(place, handle).ok()
    }

    /// Takes a handle out of a list.
    pub(super) fn leave(&mut self, index: usize, handle: Handle) {
        if let Some(place) = self.place(index, handle) {
            if let Some(list) = self.lists.get_mut(index) {
                if place < list.len() {
                    list.remove(place);
                }
            }
        }
    }

    /// Puts a list without handles behind the others.
    pub(super) fn add(&mut self, alloc: Global) -> Option<()> {
        self.lists.push(Vec::new(alloc)).ok()
    }

    /// Takes a list out.
    pub(super) fn take(&mut self, index: usize) {
        if index < self.lists.len() {
            self.lists.remove(index);
        }
    }

    pub(super) fn clear(&mut self) {
        for list in &mut self.lists {
            list.clear();
        }
    }
}
