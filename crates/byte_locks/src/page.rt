//! The locks of one page of addresses.
ghost use Rattle.std.specs.Prelude.{◌≡◌, ℕ, ◌<◌, length, IfOk};

use crate::bitmap;
use crate::lock::Lock;
use pun_base::limits::PAGE_LEN;
use std::alloc::{AllocError, Global};

/// The number of a page's first address, divided by the page's size, and what was done with each of its bytes.
///
/// A byte is changed where its bit of `changed` is 1, and then `values` has its value. It is punned where its bit of `punned`
/// alone is 1.
#[derive(Drop)]
pub(crate) struct Page {
    pub(crate) number: u32,
    pub(crate) punned: Vec<u64>,
    pub(crate) changed: Vec<u64>,
    pub(crate) values: Vec<u8>,
    ghost punned_size: { length punned.items ≡ 64 },
    ghost changed_size: { length changed.items ≡ 64 },
    ghost values_size: { length values.items ≡ 4096 },
}

impl Page {
    ghost use Rattle.byte_locks.specs.Locking.{with_lock, punned};
    ghost use Rattle.byte_locks.specs.Pages.{lock_in};

    /// Page 0 with every byte free.
    pub(crate) fn blank(alloc: Global) -> Result<Page, AllocError>
        ensures { IfOk result (λ p. (o : ℕ) → lock_in p o ≡ Lock.Free) }
    {
        let punned = bitmap::zeros(alloc, PAGE_LEN as usize / 64)?;
        let changed = bitmap::zeros(alloc, PAGE_LEN as usize / 64)?;
        let mut values = Vec::new(alloc);
        values.resize(PAGE_LEN as usize, 0)?;
        Ok(Page {
            number: 0,
            punned,
            changed,
            values,
        })
    }

    /// The lock of the byte at an offset.
    pub(crate) fn at(&self, offset: usize) -> Lock
        requires { offset < 4096 }
        ensures { result ≡ lock_in self.now offset }
    {
        if bitmap::is_set(&self.changed, offset) {
            Lock::Changed(self.values[offset])
        } else if bitmap::is_set(&self.punned, offset) {
            Lock::Punned
        } else {
            Lock::Free
        }
    }

    /// Locks the byte at an offset, which has a value from now on.
    pub(crate) fn change(&mut self, offset: usize, value: u8)
        requires { offset < 4096 }
        ensures number { self.new.number ≡ self.old.number }
        ensures locks { (o : ℕ) → lock_in self.new o
            ≡ with_lock (lock_in self.old) offset (Lock.Changed value) o }
    {
        bitmap::set(&mut self.changed, offset);
        self.values[offset] = value;
    }

    /// Locks the byte at an offset as it stands.
    pub(crate) fn pun(&mut self, offset: usize)
        requires { offset < 4096 }
        ensures number { self.new.number ≡ self.old.number }
        ensures locks { (o : ℕ) → lock_in self.new o
            ≡ with_lock (lock_in self.old) offset (punned (lock_in self.old offset)) o }
    {
        bitmap::set(&mut self.punned, offset);
    }
}
