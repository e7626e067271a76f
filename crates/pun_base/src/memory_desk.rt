//! A desk in memory, for tests and for programs that keep their files themselves.
ghost use Rattle.std.specs.Prelude.{◌≡◌, ℕ, List, Bool, Ok, Err, None, Some, ◌++◌, ◌⊎◌, IfOk, OnOk, OnErr, IsTrue, IsSome, IsErrOf, Contains, ◌↔◌};
ghost use Rattle.std.specs.Option.{option_copied};
ghost use Rattle.pun_base.specs.Shown.{Files, DeskState, with_file};
ghost use Rattle.pun_base.specs.Desk.{Begins, KeepsOthers, Puts, Ends, Reads, as_list};
ghost use Rattle.pun_base.specs.Counting.{faults_after, faults_after_read};
ghost use Rattle.pun_base.specs.MemDesk.{MemDeskState, IsToFail, new_desk, held_by, seen_desk, Counted};
ghost use Rattle.pun_base.specs.Texts.{files_in};

use crate::desk::{Desk, PutError, ReadError};
use std::alloc::{AllocError, Global};
use std::collections::BTreeMap;
use std::marker::Model;

/// A kind of a desk's calls.
#[derive(Clone, Copy, Debug, PartialEq, Eq)]
pub enum DeskCall {
    Read,
    Begin,
    Put,
    End,
}

/// Files in memory. Its listed calls fail, so that a caller's faults can be tried.
#[derive(Drop)]
pub struct MemDesk {
    files: BTreeMap<String, Vec<u8>>,
    writing: Option<String>,
    read_faults: u64,
    write_faults: u64,
    reads: u64,
    begins: u64,
    puts: u64,
    ends: u64,
    fails: Vec<(DeskCall, u64)>,
}

impl Model for MemDesk {
    ghost use Rattle.std.specs.Option.{option_map};
    ghost use Rattle.std.specs.String.{string_bytes};
    ghost use Rattle.pun_base.specs.MemDesk.{MemDeskState};
    ghost use Rattle.pun_base.specs.Texts.{files_in};

    ghost Value = { MemDeskState };

    ghost view = { λ d. record {
      files = files_in d.files;
      writing = option_map (λ name. string_bytes name) d.writing;
      read_faults = d.read_faults;
      write_faults = d.write_faults;
      calls = record { reads = d.reads; begins = d.begins; puts = d.puts; ends = d.ends };
      fails = d.fails.items;
    } };
}

fn is_listed(fails: &[(DeskCall, u64)], call: DeskCall, count: u64) -> bool
    ensures { IsTrue result ↔ Contains fails.now (call, count) }
{
    fails.contains(&(call, count))
}

/// Makes the name hold these bytes.
fn set_file(
    files: &mut BTreeMap<String, Vec<u8>>,
    alloc: Global,
    name: &str,
    bytes: &[u8],
) -> Result<(), AllocError>
    ensures ok { OnOk result (held_by (files_in files.new)
        ≡ with_file (held_by (files_in files.old)) name.now bytes.now) }
    ensures err { OnErr result (files_in files.new ≡ files_in files.old) }
{
    let name = String::from_str(alloc, name)?;
    let bytes = Vec::from_slice(alloc, bytes)?;
    files.insert(name, bytes)?;
    Ok(())
}

/// Appends to what the name holds; one that isn't held stays so.
fn append(files: &mut BTreeMap<String, Vec<u8>>, name: &str, bytes: &[u8]) -> Result<(), AllocError>
    ensures ok { OnOk result ((was : List ℕ) → held_by (files_in files.old) name.now ≡ Some was
        → held_by (files_in files.new) ≡ with_file (held_by (files_in files.old)) name.now
        (was ++ bytes.now)) }
    ensures err { OnErr result (held_by (files_in files.new) ≡ held_by (files_in files.old)) }
    ensures others { KeepsOthers name.now (held_by (files_in files.old))
        (held_by (files_in files.new)) }
{
    match files.get_mut(name) {
        Some(held) => held.extend_from_slice(bytes),
        None => Ok(()),
    }
}

/// What the name holds.
fn find<'a>(files: &'a BTreeMap<String, Vec<u8>>, name: &str) -> Option<&'a [u8]>
    ensures { option_copied result ≡ held_by (files_in files.now) name.now }
{
    match files.get(name) {
        Some(bytes) => Some(bytes.as_slice()),
        None => None,
    }
}

impl MemDesk {
    /// An empty desk, on which the n-th call of a kind fails where the pair is listed; n counts from 1.
    pub fn new(alloc: Global, fails: &[(DeskCall, u64)]) -> Result<MemDesk, AllocError>
        ensures { IfOk result (λ desk. desk ≡ new_desk fails.now) }
    {
        Ok(MemDesk {
            files: BTreeMap::new(alloc),
            writing: None,
            read_faults: 0,
            write_faults: 0,
            reads: 0,
            begins: 0,
            puts: 0,
            ends: 0,
            fails: Vec::from_slice(alloc, fails)?,
        })
    }

    /// Makes the name hold these bytes, also where it held others. No call is counted.
    pub fn add(&mut self, alloc: Global, name: &str, bytes: &[u8]) -> Result<(), AllocError>
        requires { self.old.writing ≡ None }
        ensures held { OnOk result (held_by self.new.files
            ≡ with_file (held_by self.old.files) name.now bytes.now) }
        ensures kept { OnErr result (self.new ≡ self.old) }
        ensures others { self.new ≡ record self.old { files = self.new.files } }
    {
        set_file(&mut self.files, alloc, name, bytes)
    }

    /// The bytes that the name holds.
    pub fn get(&self, name: &str) -> Option<&[u8]>
        ensures { option_copied result ≡ held_by self.now.files name.now }
    {
        find(&self.files, name)
    }
}

impl Desk for MemDesk {
    ghost seen = { seen_desk };

    fn read(&mut self, alloc: Global, name: &str, most: u64) -> Result<Vec<u8>, ReadError>
        ensures reads { Reads name.now most (seen_desk self.old) (seen_desk self.new)
            (as_list (λ v. v.items) result) }
        ensures fails { IsErrOf result ReadError.Failed
            ↔ (IsToFail DeskCall.Read self.old ⊎ (held_by self.old.files name.now ≡ None)) }
        ensures calls { Counted DeskCall.Read self.old self.new }
        ensures faults { self.new.read_faults
            ≡ faults_after_read (as_list (λ v. v.items) result) self.old.read_faults }
    {
        self.reads = self.reads.saturating_add(1);
        if is_listed(&self.fails, DeskCall::Read, self.reads) {
            self.read_faults = self.read_faults.saturating_add(1);
            return Err(ReadError::Failed);
        }
        let Some(bytes) = find(&self.files, name) else {
            self.read_faults = self.read_faults.saturating_add(1);
            return Err(ReadError::Failed);
        };
        let len = bytes.len() as u64;
        if most < len {
            return Err(ReadError::TooLong { len });
        }
        match Vec::from_slice(alloc, bytes) {
            Ok(bytes) => Ok(bytes),
            Err(_) => Err(ReadError::Memory),
        }
    }

    fn begin(&mut self, alloc: Global, name: &str) -> Result<(), PutError>
        requires { self.old.writing ≡ None }
        ensures begins { Begins name.now (seen_desk self.old) (seen_desk self.new) result }
        ensures fails { IsErrOf result PutError.Failed ↔ IsToFail DeskCall.Begin self.old }
        ensures calls { Counted DeskCall.Begin self.old self.new }
        ensures held { OnErr result (held_by self.new.files ≡ held_by self.old.files) }
        ensures faults { self.new.write_faults ≡ faults_after result self.old.write_faults }
    {
        self.begins = self.begins.saturating_add(1);
        if is_listed(&self.fails, DeskCall::Begin, self.begins) {
            self.write_faults = self.write_faults.saturating_add(1);
            return Err(PutError::Failed);
        }
        let Ok(writing) = String::from_str(alloc, name) else {
            return Err(PutError::Memory);
        };
        match set_file(&mut self.files, alloc, name, &[]) {
            Ok(()) => {
                self.writing = Some(writing);
                Ok(())
            }
            Err(_) => Err(PutError::Memory),
        }
    }

    fn put(&mut self, alloc: Global, bytes: &[u8]) -> Result<(), PutError>
        requires { IsSome self.old.writing }
        ensures puts { (name : List ℕ) → self.old.writing ≡ Some name
            → Puts name bytes.now (seen_desk self.old) (seen_desk self.new) result }
        ensures fails { IsErrOf result PutError.Failed ↔ IsToFail DeskCall.Put self.old }
        ensures calls { Counted DeskCall.Put self.old self.new }
        ensures held { OnErr result (held_by self.new.files ≡ held_by self.old.files) }
        ensures faults { self.new.write_faults ≡ faults_after result self.old.write_faults }
    {
        self.puts = self.puts.saturating_add(1);
        if is_listed(&self.fails, DeskCall::Put, self.puts) {
            self.write_faults = self.write_faults.saturating_add(1);
            self.writing = None;
            return Err(PutError::Failed);
        }
        let Some(name) = &self.writing else {
            return Ok(());
        };
        match append(&mut self.files, name, bytes) {
            Ok(()) => Ok(()),
            Err(_) => {
                self.writing = None;
                Err(PutError::Memory)
            }
        }
    }

    fn end(&mut self) -> Result<(), PutError>
        requires { IsSome self.old.writing }
        ensures ends { Ends (seen_desk self.old) (seen_desk self.new) result }
        ensures fails { IsErrOf result PutError.Failed ↔ IsToFail DeskCall.End self.old }
        ensures calls { Counted DeskCall.End self.old self.new }
        ensures faults { self.new.write_faults ≡ faults_after result self.old.write_faults }
    {
        self.ends = self.ends.saturating_add(1);
        self.writing = None;
        if is_listed(&self.fails, DeskCall::End, self.ends) {
            self.write_faults = self.write_faults.saturating_add(1);
            return Err(PutError::Failed);
        }
        Ok(())
    }
}
