//! Places in the order in which they were put in line, each at most once.

use std::alloc::{AllocError, Global};

// The neighbours of a place that stands in line.
#[derive(Clone, Copy)]
struct Link {
    before: Option<u32>,
    after: Option<u32>,
}

/// Places in line, each at most once. One is put at the end, or taken out wherever it stands, at the same small cost.
#[derive(Drop)]
pub struct Chain {
    links: Vec<Option<Link>>,
    first: Option<u32>,
    last: Option<u32>,
}

impl Chain {
    /// Nobody is in line, and there is room for none.
    pub fn new(alloc: Global) -> Chain {
        Chain {
            links: Vec::new(alloc),
            first: None,
            last: None,
        }
    }

    /// Makes room for the places below this one, and for it.
    pub fn make_room(&mut self, place: u32) -> Result<(), AllocError> {
        let wanted = (place as usize).saturating_add(1);
        if self.links.len() < wanted {
            self.links.resize(wanted, None)?;
        }
        Ok(())
    }

    /// Whether a place is in line.
    pub fn contains(&self, place: u32) -> bool {
        matches!(self.links.get(place as usize), Some(Some(_)))
    }

    /// Who stands first.
    pub fn first(&self) -> Option<u32> {
        self.first
    }

    /// Takes out who stands first.
    pub fn take_first(&mut self) -> Option<u32> {
        let first = self.first?;
        self.remove(first);
        Some(first)
    }

    /// Puts a place at the end, also where it is in line. One for which there is no room is passed over.
    pub fn append(&mut self, place: u32) {
        self.remove(place);
        let last = self.last;
        if let Some(link) = self.links.get_mut(place as usize) {
            *link = Some(Link {
                before: last,
                after: None,
            });
            self.set_after(last, Some(place));
            self.last = Some(place);
        }
    }

    /// Takes a place out, if it is in line.
    pub fn remove(&mut self, place: u32) {
        let Some(link) = self.links.get_mut(place as usize) else {
            return;
        };
        if let Some(old) = link.take() {
            self.set_after(old.before, old.after);
            self.set_before(old.after, old.before);
        }
    }

    // Who stands behind a place, or first where that is none.
    fn set_after(&mut self, place: Option<u32>, after: Option<u32>) {
        match place {
            None => self.first = after,
            Some(place) => {
                if let Some(Some(link)) = self.links.get_mut(place as usize) {
                    link.after = after;
                }
            }
        }
    }

    // Who stands before a place, or last where that is none.
    fn set_before(&mut self, place: Option<u32>, before: Option<u32>) {
        match place {
            None => self.last = before,
            Some(place) => {
                if let Some(Some(link)) = self.links.get_mut(place as usize) {
                    link.before = before;
                }
            }
        }
    }
}
