use std::mem;
use stores::{ROWS, STARTS};

/// A flag for each start of each row.
#[derive(Drop)]
pub(crate) struct Plain {
    flags: [[bool; STARTS]; ROWS],
}

impl Plain {
    pub(crate) fn empty() -> Plain {
        Plain {
            flags: [[false; STARTS]; ROWS],
        }
    }

    pub(crate) fn holds(&self, row: usize, start: usize) -> bool {
        row < ROWS && start < STARTS && self.flags[row][start]
    }

    pub(crate) fn size(&self, row: usize) -> usize {
        (0..STARTS).filter(|start| self.holds(row, *start)).count()
    }

    pub(crate) fn after(&self, row: usize, start: usize) -> Option<usize> {
        (start..STARTS).find(|start| self.holds(row, *start))
    }

    /// Sets the flag, and tells whether it changed.
    pub(crate) fn put(&mut self, row: usize, start: usize, flag: bool) -> bool {
        let old = self
            .flags
            .get_mut(row)
            .and_then(|flags| flags.get_mut(start));
        old.is_some_and(|old| mem::replace(old, flag) != flag)
    }
}
