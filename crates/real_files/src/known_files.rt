//! Which files were read or written, so that none of them is written over.
ghost use Rattle.std.specs.Prelude.{◌≡◌, ◌↔◌, ◌++◌, ◌∷◌, [], Contains, None, Some, IfErr, IsErrAnd, IsSome, OnOk, OnErr, bit_and, option_to_list, unwrap_or};
ghost use Rattle.std.specs.Fs.{IsFile, file_type, metadata_mode};
ghost use Rattle.std.specs.IoError.{error_kind};
ghost use Rattle.real_files.specs.KnownFiles.{no_files, StayKnown};

use std::alloc::Global;
use std::fs::Metadata;
use std::io::{self, ErrorKind};
use std::marker::Model;
use std::os::unix::fs::MetadataExt;

/// The bits of a file's mode that let someone run it.
const RUN_BITS: u32 = 0o111;

/// What the system knows a file by, whatever its names are: a device, and a number there.
#[derive(Clone, Copy, PartialEq, Eq)]
pub(crate) struct FileId {
    device: u64,
    number: u64,
}

impl FileId {
    /// Which file this is told of, where it is a regular one. No clause says which numbers it has: what the library calls for them
    /// answer has none.
    pub(crate) fn of(told: &Metadata) -> Option<FileId>
        ensures { IsSome result ↔ IsFile (file_type told.now) }
    {
        if told.is_file() {
            Some(FileId {
                device: told.dev(),
                number: told.ino(),
            })
        } else {
            None
        }
    }
}

/// The regular files that were read or written, and who may run the next file that is made.
#[derive(Drop)]
pub(crate) struct KnownFiles {
    ids: Vec<FileId>,
    run_bits: Option<u32>,
}

impl Model for KnownFiles {
    ghost use Rattle.real_files.specs.KnownFiles.{KnownState};

    ghost Value = { KnownState };

    ghost view = { λ known. record { ids = known.ids.items; run_bits = known.run_bits } };
}

impl KnownFiles {
    /// None yet. It takes no memory.
    pub(crate) fn new(alloc: Global) -> KnownFiles
        ensures { result ≡ no_files }
    {
        KnownFiles {
            ids: Vec::new(alloc),
            run_bits: None,
        }
    }

    /// Remembers a file that is read, where it is a regular one, and who can run it, where it is the first.
    pub(crate) fn note(&mut self, told: &Metadata, id: Option<FileId>) -> io::Result<()>
        ensures memory { IfErr result (λ e. error_kind e ≡ ErrorKind.OutOfMemory) }
        ensures remembers { OnOk result (self.new.ids ≡ self.old.ids ++ option_to_list id) }
        ensures keeps { OnErr result (self.new.ids ≡ self.old.ids) }
        ensures bits { self.new.run_bits
            ≡ Some (unwrap_or self.old.run_bits (bit_and (metadata_mode told.now) 0o111)) }
    {
        if self.run_bits.is_none() {
            self.run_bits = Some(told.mode() & RUN_BITS);
        }
        match id {
            None => Ok(()),
            Some(id) => self.add(id),
        }
    }

    /// Remembers a file that is to be written over, and refuses one that was read or written.
    pub(crate) fn claim(&mut self, id: FileId) -> io::Result<()>
        ensures refuses { Contains self.old.ids id
            → IsErrAnd result (λ e. error_kind e ≡ ErrorKind.ResourceBusy) }
        ensures admits { (Contains self.old.ids id → ⊥)
            → IfErr result (λ e. error_kind e ≡ ErrorKind.OutOfMemory) }
        ensures remembers { OnOk result (self.new.ids ≡ self.old.ids ++ id ∷ []) }
        ensures keeps { OnErr result (self.new.ids ≡ self.old.ids) }
        ensures bits { self.new.run_bits ≡ self.old.run_bits }
        ensures stay { StayKnown self.old self.new }
    {
        if self.ids.contains(&id) {
            return Err(io::Error::from(ErrorKind::ResourceBusy));
        }
        self.add(id)
    }

    /// The bits that let someone run the file that is made next: those of the file that was read
    /// first, and none once they were taken.
    pub(crate) fn take_run_bits(&mut self) -> u32
        ensures taken { result ≡ unwrap_or self.old.run_bits 0 }
        ensures none_left { self.new.run_bits ≡ Some 0 }
        ensures keeps { self.new.ids ≡ self.old.ids }
        ensures stay { StayKnown self.old self.new }
    {
        let bits = self.run_bits.unwrap_or(0);
        self.run_bits = Some(0);
        bits
    }

    fn add(&mut self, id: FileId) -> io::Result<()>
        ensures memory { IfErr result (λ e. error_kind e ≡ ErrorKind.OutOfMemory) }
        ensures remembers { OnOk result (self.new.ids ≡ self.old.ids ++ id ∷ []) }
        ensures keeps { OnErr result (self.new.ids ≡ self.old.ids) }
        ensures bits { self.new.run_bits ≡ self.old.run_bits }
    {
        self.ids.push(id)?;
        Ok(())
    }
}
