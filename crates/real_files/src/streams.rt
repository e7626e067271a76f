//! Whole byte lists to a writer and from a reader.
ghost use Rattle.std.specs.Prelude.{◌≡◌, ◌↔◌, ◌+◌, ◌<◌, ◌≤◌, ℕ, Err, IfOk, IsTrue, vec_len};
ghost use Rattle.std.specs.IoError.{error_kind};
ghost use Rattle.pun_base.specs.Desk.{as_list};
ghost use Rattle.real_files.specs.Streams.{AppendsWhole, GivesAll, ConsumesUpTo};

use pun_base::desk::{PutError, ReadError};
use std::alloc::Global;
use std::io::{self, ErrorKind, Read, Write};

/// How many bytes are read at once, at most.
const PIECE: usize = 4096;

/// Whether memory is what was wanting.
pub fn is_out_of_memory(error: &io::Error) -> bool
    ensures { IsTrue result ↔ (error_kind error.now ≡ ErrorKind.OutOfMemory) }
{
    matches!(error.kind(), ErrorKind::OutOfMemory)
}

/// Why bytes weren't written: an error of the system is want of memory, or a fault.
pub fn put_error(error: &io::Error) -> PutError
    ensures memory { error_kind error.now ≡ ErrorKind.OutOfMemory → result ≡ PutError.Memory }
    ensures fault { (error_kind error.now ≡ ErrorKind.OutOfMemory → ⊥) → result ≡ PutError.Failed }
{
    if is_out_of_memory(error) {
        PutError::Memory
    } else {
        PutError::Failed
    }
}

/// Why a file wasn't read: an error of the system is want of memory, or a fault.
pub fn read_error(error: &io::Error) -> ReadError
    ensures memory { error_kind error.now ≡ ErrorKind.OutOfMemory → result ≡ ReadError.Memory }
    ensures fault { (error_kind error.now ≡ ErrorKind.OutOfMemory → ⊥) → result ≡ ReadError.Failed }
{
    if is_out_of_memory(error) {
        ReadError::Memory
    } else {
        ReadError::Failed
    }
}

/// Writes all the bytes. A write that takes none of them is a fault.
pub fn write_bytes<W: Write>(to: &mut W, bytes: &[u8]) -> Result<(), PutError>
    ensures { AppendsWhole bytes.now result (W.contents to.old) (W.contents to.new) }
{
    let mut rest = bytes;
    while !rest.is_empty() {
        match to.write(rest) {
            Ok(0) => return Err(PutError::Failed),
            Ok(count) => rest = &rest[count..],
            Err(error) => return Err(put_error(&error)),
        }
    }
    Ok(())
}

/// Reads to the end, or one byte further than `most`.
pub fn read_at_most<R: Read>(alloc: Global, from: &mut R, most: u64) -> Result<Vec<u8>, ReadError>
    ensures within { IfOk result (λ bytes. vec_len bytes ≤ most) }
    ensures too_long { (len : ℕ) → result ≡ Err (ReadError.TooLong len) → most < len }
    ensures all { GivesAll most (as_list (λ v. v.items) result) (R.remaining from.old) }
    ensures taken { ConsumesUpTo (most + 1) (R.remaining from.old) (R.remaining from.new) }
{
    let mut bytes = Vec::new(alloc);
    let mut piece = [0; PIECE];
    loop {
        let room = (most - bytes.len() as u64).min(PIECE as u64 - 1) as usize + 1;
        let count = match from.read(&mut piece[..room]) {
            Ok(count) => count,
            Err(error) => return Err(read_error(&error)),
        };
        if count == 0 {
            return Ok(bytes);
        }
        if bytes.extend_from_slice(&piece[..count]).is_err() {
            return Err(ReadError::Memory);
        }
        let len = bytes.len() as u64;
        if most < len {
            return Err(ReadError::TooLong { len });
        }
    }
}
