//! Real files as a desk.
ghost use Rattle.std.specs.Prelude.{◌≡◌, ◌<◌, ◌≤◌, ◌++◌, ℕ, List, None, Some, Ok, Err, IfOk, IfErr, IsSome, option_to_list, string_bytes, vec_len};
ghost use Rattle.std.specs.IoError.{error_kind};
ghost use Rattle.pun_base.specs.Counting.{faults_after, faults_after_read};
ghost use Rattle.pun_base.specs.Desk.{Begins, Puts, Ends, Reads, as_list};
ghost use Rattle.real_files.specs.FileDesk.{new_file_desk, seen_files, FileGrows, IsSomeFile};
ghost use Rattle.real_files.specs.KnownFiles.{IsClaimed, StayKnown};
ghost use Rattle.real_files.specs.Streams.{GivesAll};

use crate::known_files::{FileId, KnownFiles};
use crate::streams::{put_error, read_at_most, read_error, write_bytes};
use pun_base::desk::{Desk, PutError, ReadError};
use std::alloc::Global;
use std::fs::{self, OpenFile, OpenOptions};
use std::io::{self, ErrorKind, Read};
use std::marker::Model;
use std::os::unix::fs::OpenOptionsExt;
use std::rt::Files;

/// Who may read and write a file that is made, as far as the user's mask lets them.
const NEW_MODE: u32 = 0o666;

/// The file that is being written.
#[derive(Drop)]
struct Output<F> {
    name: String,
    file: F,
}

/// Files of the system. It tells nothing of what they hold.
///
/// It refuses to write over a regular file that it read or wrote, by whatever name. The first file
/// that it makes can be run by those who can run the first that it read.
#[derive(Drop)]
pub struct FileDesk<'a, R: Files> {
    rt: &'a R,
    known: KnownFiles,
    writing: Option<Output<R::File>>,
    read_faults: u64,
    write_faults: u64,
}

impl<'a, R: Files> Model for FileDesk<'a, R> {
    ghost use Rattle.std.specs.Prelude.{string_bytes};
    ghost use Rattle.std.specs.Option.{option_map};
    ghost use Rattle.real_files.specs.FileDesk.{FileDeskState};

    ghost Value = { FileDeskState };

    ghost view = { λ d. record {
      writing = option_map (λ output. record { name = string_bytes output.name; bytes = R.File.contents output.file }) d.writing;
      read_faults = d.read_faults;
      write_faults = d.write_faults;
    } };
}

/// A file that was opened, and what it is known by where it is a regular one.
#[derive(Drop)]
struct Opened<F> {
    file: F,
    id: Option<FileId>,
}

/// Opens a file to be read, and remembers it.
fn open<R: Files>(rt: &R, known: &mut KnownFiles, name: &str) -> io::Result<Opened<R::File>>
    ensures known { IfOk result (λ opened. known.new.ids ≡ known.old.ids ++ option_to_list opened.id) }
    ensures keeps { StayKnown known.old known.new }
{
    let file = fs::open(rt, name)?;
    let told = file.metadata()?;
    let id = FileId::of(&told);
    known.note(&told, id)?;
    Ok(Opened { file, id })
}

/// Reads what was opened, to its end or one byte further than `most`.
fn read_opened<F: Read + Drop>(
    alloc: Global,
    opened: io::Result<Opened<F>>,
    most: u64,
) -> Result<Vec<u8>, ReadError>
    ensures within { IfOk result (λ bytes. vec_len bytes ≤ most) }
    ensures too_long { (len : ℕ) → result ≡ Err (ReadError.TooLong len) → most < len }
    ensures all { IfOk opened (λ opened. GivesAll most (as_list (λ v. v.items) result)
        (F.remaining opened.file)) }
    ensures some_file { IsSomeFile F.remaining most (as_list (λ v. v.items) result) }
    ensures memory { IfErr opened (λ e. error_kind e ≡ ErrorKind.OutOfMemory
        → result ≡ Err ReadError.Memory) }
    ensures fault { IfErr opened (λ e. (error_kind e ≡ ErrorKind.OutOfMemory → ⊥)
        → result ≡ Err ReadError.Failed) }
{
    match opened {
        Ok(opened) => {
            let mut file = opened.file;
            read_at_most(alloc, &mut file, most)
        }
        Err(error) => Err(read_error(&error)),
    }
}

/// Opens a file to be written, and makes it empty, or makes an empty one. One that was read or written
/// is refused and stays as it is; a pipe or a terminal can't be emptied, and is written as it is.
fn open_empty<R: Files>(rt: &R, known: &mut KnownFiles, name: &str) -> io::Result<Opened<R::File>>
    ensures claimed { IfOk result (λ opened. IsClaimed opened.id known.old known.new) }
    ensures keeps { StayKnown known.old known.new }
{
    let mode = NEW_MODE | known.take_run_bits();
    let file = OpenOptions::new()
        .write(true)
        .create(true)
        .mode(mode)
        .open(rt, name)?;
    let Some(id) = FileId::of(&file.metadata()?) else {
        return Ok(Opened { file, id: None });
    };
    known.claim(id)?;
    file.set_len(0)?;
    Ok(Opened { file, id: Some(id) })
}

/// The file that is being written, where it was opened.
fn output_of<F: Drop>(name: String, opened: io::Result<Opened<F>>) -> Result<Output<F>, PutError>
    ensures opened { IfOk opened (λ opened. result ≡ Ok (record { name = name; file = opened.file })) }
    ensures memory { IfErr opened (λ e. error_kind e ≡ ErrorKind.OutOfMemory
        → result ≡ Err PutError.Memory) }
    ensures fault { IfErr opened (λ e. (error_kind e ≡ ErrorKind.OutOfMemory → ⊥)
        → result ≡ Err PutError.Failed) }
{
    match opened {
        Ok(opened) => Ok(Output {
            name,
            file: opened.file,
        }),
        Err(error) => Err(put_error(&error)),
    }
}

/// What ends a file that was to be brought to its disk. A pipe or a terminal has none.
fn end_answer(synced: io::Result<()>) -> Result<(), PutError>
    ensures done { IfOk synced (λ u. result ≡ Ok tt) }
    ensures no_disk { IfErr synced (λ e. error_kind e ≡ ErrorKind.InvalidInput → result ≡ Ok tt) }
    ensures fault { IfErr synced (λ e. (error_kind e ≡ ErrorKind.InvalidInput → ⊥)
        → result ≡ Err PutError.Failed) }
{
    match synced {
        Ok(()) => Ok(()),
        Err(error) if matches!(error.kind(), ErrorKind::InvalidInput) => Ok(()),
        Err(_) => Err(PutError::Failed),
    }
}

impl<'a, R: Files> FileDesk<'a, R> {
    /// A desk on which nothing is being written yet. It takes no memory.
    pub fn new(alloc: Global, rt: &'a R) -> FileDesk<'a, R>
        ensures { result ≡ new_file_desk }
    {
        FileDesk {
            rt,
            known: KnownFiles::new(alloc),
            writing: None,
            read_faults: 0,
            write_faults: 0,
        }
    }

    /// Counts the answer where it is a fault.
    fn counted(&mut self, answer: Result<(), PutError>) -> Result<(), PutError>
        ensures value { result ≡ answer }
        ensures writing { self.new.writing ≡ self.old.writing }
        ensures reads { self.new.read_faults ≡ self.old.read_faults }
        ensures later { self.old.write_faults ≤ self.new.write_faults }
        ensures writes { self.new.write_faults ≡ faults_after answer self.old.write_faults }
    {
        if matches!(answer, Err(PutError::Failed)) {
            self.write_faults = self.write_faults.saturating_add(1);
        }
        answer
    }
}

impl<R: Files> Desk for FileDesk<'_, R> {
    ghost seen = { seen_files };

    fn read(&mut self, alloc: Global, name: &str, most: u64) -> Result<Vec<u8>, ReadError>
        ensures reads { Reads name.now most (seen_files self.old) (seen_files self.new)
            (as_list (λ v. v.items) result) }
        ensures faults { self.new.read_faults
            ≡ faults_after_read (as_list (λ v. v.items) result) self.old.read_faults }
        ensures some_file { IsSomeFile R.File.remaining most (as_list (λ v. v.items) result) }
    {
        let opened = open(self.rt, &mut self.known, name);
        let result = read_opened(alloc, opened, most);
        if matches!(result, Err(ReadError::Failed)) {
            self.read_faults = self.read_faults.saturating_add(1);
        }
        result
    }

    fn begin(&mut self, alloc: Global, name: &str) -> Result<(), PutError>
        requires { (seen_files self.old).writing ≡ None }
        ensures begins { Begins name.now (seen_files self.old) (seen_files self.new) result }
        ensures faults { self.new.write_faults ≡ faults_after result self.old.write_faults }
    {
        let Ok(copy) = String::from_str(alloc, name) else {
            return Err(PutError::Memory);
        };
        match output_of(copy, open_empty(self.rt, &mut self.known, name)) {
            Ok(output) => {
                self.writing = Some(output);
                Ok(())
            }
            Err(error) => self.counted(Err(error)),
        }
    }

    fn put(&mut self, _alloc: Global, bytes: &[u8]) -> Result<(), PutError>
        requires { IsSome (seen_files self.old).writing }
        ensures puts { (name : List ℕ) → (seen_files self.old).writing ≡ Some name
            → Puts name bytes.now (seen_files self.old) (seen_files self.new) result }
        ensures faults { self.new.write_faults ≡ faults_after result self.old.write_faults }
        ensures grows { FileGrows bytes.now result self.old self.new }
    {
        let Some(mut output) = self.writing.take() else {
            unreachable!();
        };
        self.counted(write_bytes(&mut output.file, bytes))?;
        self.writing = Some(output);
        Ok(())
    }

    fn end(&mut self) -> Result<(), PutError>
        requires { IsSome (seen_files self.old).writing }
        ensures ends { Ends (seen_files self.old) (seen_files self.new) result }
        ensures faults { self.new.write_faults ≡ faults_after result self.old.write_faults }
    {
        let Some(output) = self.writing.take() else {
            unreachable!();
        };
        self.counted(end_answer(output.file.sync_all()))
    }
}
