//! The locks of all bytes.
ghost use Rattle.std.specs.Prelude.{◌≡◌, ℕ, ◌+◌, ◌≤◌, ◌↔◌, IsTrue, OnOk, OnErr};
ghost use Rattle.byte_locks.specs.Locking.{lock_at, with_lock, punned};

use crate::blank_page::BlankPage;
use crate::lock::Lock;
use crate::page::Page;
use crate::pages;
use pun_base::blanks::prepare;
use std::alloc::{AllocError, Global};
use std::marker::Model;

/// The lock of each address, by pages of 4,096 addresses in ascending order.
///
/// Memory is taken by `reserve` alone: it makes blank pages beforehand. Contracts see as `spare` how many these are, and so for
/// how many more locks they serve, since a lock takes one at most.
#[derive(Drop)]
pub struct Locks {
    pages: Vec<Page>,
    blank: Vec<BlankPage>,
}

impl Model for Locks {
    ghost use Rattle.std.specs.Prelude.{◌+◌, ◌≤◌, vec_len, vec_capacity};
    ghost use Rattle.std.specs.FinMap.{from_entries};
    ghost use Rattle.byte_locks.specs.Locking.{LocksState, state_code};
    ghost use Rattle.byte_locks.specs.Pages.{Ascending, entries};

    ghost Value = { LocksState };

    ghost coded = { state_code };

    ghost view = { λ l. record { locked = from_entries (entries l.pages.items); spare = vec_len l.blank } };

    ghost invariant = { λ l. Ascending 0 l.pages.items × (vec_len l.pages + vec_len l.blank ≤ vec_capacity l.pages) };
}

impl Locks {
    /// Every byte is free.
    pub fn new(alloc: Global) -> Locks
        ensures { (a : ℕ) → lock_at result a ≡ Lock.Free }
    {
        Locks {
            pages: Vec::new(alloc),
            blank: Vec::new(alloc),
        }
    }

    /// Makes room for at least `n` more calls of `change` and `pun`.
    pub fn reserve(&mut self, alloc: Global, n: u32) -> Result<(), AllocError>
        ensures spare { OnOk result (n ≤ self.new.spare) }
        ensures locks { OnOk result (self.new.locked ≡ self.old.locked) }
        ensures refused { OnErr result (self.new ≡ self.old) }
    {
        self.pages.reserve(n as usize)?;
        prepare(&mut self.blank, alloc, n as usize)
    }

    /// The lock of the byte at `addr`.
    pub fn at(&self, addr: u32) -> Lock
        ensures { result ≡ lock_at self.now addr }
    {
        pages::lock_at(&self.pages, addr)
    }

    /// Whether the byte at `addr` may be written.
    pub fn is_free(&self, addr: u32) -> bool
        ensures { IsTrue result ↔ (lock_at self.now addr ≡ Lock.Free) }
    {
        self.at(addr) == Lock::Free
    }

    /// Locks the byte at `addr`, which has the value `value` from now on.
    pub fn change(&mut self, addr: u32, value: u8)
        requires free { lock_at self.old addr ≡ Lock.Free }
        requires spare { 1 ≤ self.old.spare }
        ensures locks { (a : ℕ) → lock_at self.new a
            ≡ with_lock (lock_at self.old) addr (Lock.Changed value) a }
        ensures spare { self.old.spare ≤ self.new.spare + 1 }
    {
        pages::change(&mut self.pages, &mut self.blank, addr, value);
    }

    /// Locks the byte at `addr` as it stands.
    pub fn pun(&mut self, addr: u32)
        requires { 1 ≤ self.old.spare }
        ensures locks { (a : ℕ) → lock_at self.new a
            ≡ with_lock (lock_at self.old) addr (punned (lock_at self.old addr)) a }
        ensures spare { self.old.spare ≤ self.new.spare + 1 }
    {
        pages::pun(&mut self.pages, &mut self.blank, addr);
    }
}
