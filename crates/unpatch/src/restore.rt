//! The original again.
ghost use Rattle.std.specs.Prelude.{◌≡◌, ◌≤◌, length, map, None, Some, IfErr, IfOk};
ghost use Rattle.patch_report.specs.Values.{write_value};
ghost use Rattle.unpatch.specs.Refusals.{is_outside, refusal, refusal_of, Refused, RefusedBy, Undoes, UndoneBy};
ghost use Rattle.unpatch.specs.Undone.{old_bytes, put_back, with_origin};

use crate::error::UnpatchError;
use crate::missing::least_missing;
use crate::places::put_runs;
use elf_read::elf::Elf;
use elf_read::header::{E_ENTRY, E_PHNUM, E_PHOFF, HEADER_LEN};
use patch_report::origin::Origin;
use patch_report::report::Report;
use pun_base::field::{put_u16, put_u64};
use pun_base::limits::PAGE_LEN;
use pun_base::plan::Write;
use std::alloc::Global;

/// Whether a file of this size can't have been written for an original of this length.
fn is_outside(len: u64, size: usize) -> bool
    ensures { result ≡ is_outside len size }
{
    let page = PAGE_LEN as u64;
    let pad = (page - len % page) % page;
    len < HEADER_LEN as u64 || (size as u128) < u128::from(len) + u128::from(pad)
}

/// Puts the original's fields in a header.
fn put_origin(bytes: &mut [u8], origin: Origin)
    requires { 64 ≤ length bytes.old }
    ensures { bytes.new ≡ with_origin origin bytes.old }
{
    put_u64(bytes, E_ENTRY, origin.entry);
    put_u64(bytes, E_PHOFF, origin.phoff);
    put_u16(bytes, E_PHNUM, origin.phnum);
}

/// Undoes what was written, in the first bytes of the patched file.
fn undo(bytes: &mut [u8], patched: &Elf<'_>, origin: Origin, runs: &[Write])
    requires { 64 ≤ length bytes.old }
    ensures { bytes.new
        ≡ put_back patched.now.bytes (old_bytes (map write_value runs.now)) (with_origin origin bytes.old) }
{
    put_origin(bytes, origin);
    put_runs(bytes, patched, runs);
}

/// The original of a patched file, by its origin and the runs that were written over it.
fn restore_runs(
    alloc: Global,
    patched: &Elf<'_>,
    origin: Origin,
    runs: &[Write],
) -> Result<Vec<u8>, UnpatchError>
    ensures refused { IfErr result (λ error.
        RefusedBy patched.now.bytes (Some origin) (map write_value runs.now) error) }
    ensures accepted { IfOk result (λ bytes.
        refusal_of patched.now.bytes (Some origin) (map write_value runs.now) ≡ None) }
    ensures undone { IfOk result (λ bytes.
        UndoneBy patched.now.bytes (Some origin) (map write_value runs.now) bytes.items) }
{
    let file = patched.file();
    if is_outside(origin.len, file.len()) {
        return Err(UnpatchError::OriginOutside);
    }
    if let Some(addr) = least_missing(patched, runs) {
        return Err(UnpatchError::BytesDiffer { addr: addr as u32 });
    }
    let mut bytes = Vec::from_slice(alloc, &file[..origin.len as usize])?;
    undo(&mut bytes, patched, origin, runs);
    Ok(bytes)
}

/// The original of a patched file, by the file's report. Where one of three refusals holds, the answer is the first
/// that does: the report tells no origin, the original's length isn't one that the file can have, the file hasn't a
/// byte that the report tells. `Memory` may come in place of any answer. Bytes outside the report's runs are compared
/// with nothing.
pub fn restore(alloc: Global, patched: &Elf<'_>, report: &Report) -> Result<Vec<u8>, UnpatchError>
    ensures refused { IfErr result (λ error. Refused patched.now.bytes report.now error) }
    ensures accepted { IfOk result (λ bytes. refusal patched.now.bytes report.now ≡ None) }
    ensures undone { IfOk result (λ bytes. Undoes patched.now.bytes report.now bytes.items) }
{
    let Some(origin) = report.origin() else {
        return Err(UnpatchError::NoOrigin);
    };
    let runs = report.runs(alloc)?;
    restore_runs(alloc, patched, origin, &runs)
}
