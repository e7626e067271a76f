//! The list of starts.
ghost use Rattle.std.specs.Prelude.{◌≡◌, ◌↔◌, IsTrue, IfErr, IfOk, IfSome, IsSome, None, Contains, length, option_copied};
ghost use Rattle.std.specs.List.Sorted.{IsStrictlyIncreasing};
ghost use Rattle.start_entries.specs.Entries.{entries_of};
ghost use Rattle.start_entries.specs.Refusals.{first_refusal, Refused};
ghost use Rattle.start_entries.specs.Laws.{IsBuilt};
ghost use Rattle.start_entries.specs.Finding.{addresses, entry_at, entry_after, IsLeastAbove};

use crate::building::{push_by_window, window_of_start};
use crate::entry::StartEntry;
use crate::refusal::StartError;
use elf_read::elf::Elf;
use std::alloc::{AllocError, Global};
use std::marker::Model;

/// The starts of a file in ascending order of addresses, each with its length and its instruction. Clauses see the list of its entries.
#[derive(Drop)]
pub struct Starts {
    items: Vec<StartEntry>,
}

impl Model for Starts {
    ghost use Rattle.std.specs.Prelude.{List};
    ghost use Rattle.std.specs.List.Sorted.{IsStrictlyIncreasing};
    ghost use Rattle.start_entries.specs.declared.entry.StartEntry.{StartEntry};
    ghost use Rattle.start_entries.specs.Finding.{addresses};

    ghost Value = { List StartEntry };

    ghost view = { λ s. s.items.items };

    ghost invariant = { λ s. IsStrictlyIncreasing (addresses s.items.items) };
}

/// Whether each address is above the one before it, as a list of starts has to be.
pub fn ascend(addrs: &[u32]) -> bool
    ensures { IsTrue result ↔ IsStrictlyIncreasing addrs.now }
{
    addrs.is_sorted_by(|first, second| first < second)
}

impl Starts {
    /// Reads what stands at each of the starts. The error is the first start that breaks a rule, or `Memory`.
    pub fn build(alloc: Global, elf: &Elf<'_>, starts: &[u32]) -> Result<Starts, StartError>
        requires { IsStrictlyIncreasing starts.now }
        ensures refused { IfErr result (λ error. Refused elf.now.bytes starts.now error) }
        ensures accepted { IfOk result (λ s. first_refusal elf.now.bytes starts.now ≡ None) }
        ensures entries { IfOk result (λ s. s ≡ entries_of elf.now.bytes starts.now) }
        ensures built { IfOk result (λ s. IsBuilt elf.now.bytes s) }
    {
        let mut items = Vec::new(alloc);
        let mut left = starts;
        let mut reached = 0;
        let mut place = 0;
        while let Some((addr, after)) = left.split_first() {
            let window = window_of_start(elf, &mut place, *addr)?;
            let next = after.first().copied();
            let Ok(new) = push_by_window(&mut items, window, *addr, reached, next) else {
                return Err(StartError::Memory);
            };
            reached = new;
            left = after;
        }
        Ok(Starts { items })
    }

    /// Reads what stands at each of the starts, whichever rules they break.
    pub fn list(alloc: Global, elf: &Elf<'_>, starts: &[u32]) -> Result<Starts, AllocError>
        requires { IsStrictlyIncreasing starts.now }
        ensures { IfOk result (λ s. s ≡ entries_of elf.now.bytes starts.now) }
    {
        let mut items = Vec::new(alloc);
        let mut left = starts;
        let mut reached = 0;
        while let Some((addr, after)) = left.split_first() {
            let next = after.first().copied();
            reached = push_by_window(&mut items, elf.window(*addr), *addr, reached, next)?;
            left = after;
        }
        Ok(Starts { items })
    }

    /// How many starts there are.
    pub fn len(&self) -> usize
        ensures { result ≡ length self.now }
    {
        self.items.len()
    }

    /// The entries of all starts, in ascending order of addresses.
    pub fn entries(&self) -> &[StartEntry]
        ensures value { result.now ≡ self.now }
        ensures ascending { IsStrictlyIncreasing (addresses self.now) }
    {
        &self.items
    }

    /// The entry of the start at an address.
    pub fn at(&self, addr: u32) -> Option<&StartEntry>
        ensures value { option_copied result ≡ entry_at self.now addr }
        ensures listed { IsSome result ↔ Contains (addresses self.now) addr }
    {
        let place = self.items.partition_point(|entry| entry.addr < addr);
        let entry = self.items.get(place)?;
        if entry.addr == addr {
            Some(entry)
        } else {
            None
        }
    }

    /// The entry of the least start above an address.
    pub fn next_after(&self, addr: u32) -> Option<&StartEntry>
        ensures value { option_copied result ≡ entry_after self.now addr }
        ensures least { IfSome result (λ entry. IsLeastAbove self.now addr entry.now) }
    {
        let place = self.items.partition_point(|entry| entry.addr <= addr);
        self.items.get(place)
    }
}
