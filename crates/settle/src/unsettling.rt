//! Files that come back.
ghost use Rattle.std.specs.Prelude.{◌≡◌, ◌≤◌, length, Some, IfErr, IfOk};
ghost use Rattle.pun_base.specs.Desk.{as_list};
ghost use Rattle.settle.specs.Undone.{behind_front, unsettled, NotUndone};
ghost use Rattle.settle.specs.Settling.{unsettle_error, IsCompared};

use crate::error::{SettleError, UnsettleError};
use crate::front::front_len;
use crate::settling::settle;
use elf_read::header::{E_PHNUM, HEADER_LEN};
use elf_read::segment::ENTRY_LEN;
use pun_base::field::{get_u16, get_u64};
use std::alloc::Global;

/// Where the first entry's `p_paddr` stands, which tells the base.
const BASE_AT: usize = HEADER_LEN + 24;

/// The least bytes of a front: a page.
const LEAST: usize = 4096;

/// What stands behind the front.
#[tactic(auto, unfolding(elf_read::specs::Entries::table_count))]
fn behind_front(out: &[u8]) -> &[u8]
    requires { 4096 ≤ length out.now }
    ensures { result.now ≡ behind_front out.now }
{
    let count = get_u16(out, E_PHNUM).saturating_sub(1);
    let len = front_len(usize::from(count));
    if len <= out.len() { &out[len..] } else { &[] }
}

/// The file that was settled, where these bytes are what `settle` writes for it.
pub fn unsettle(alloc: Global, out: &[u8]) -> Result<Vec<u8>, UnsettleError>
    ensures refused { IfErr result (λ error. NotUndone out.now error) }
    ensures undone { IfOk result (λ v. unsettled out.now ≡ Some v.items) }
{
    if out.len() < LEAST {
        return Err(UnsettleError::NotSettled);
    }
    let file = behind_front(out);
    let base = get_u64(out, BASE_AT);
    if base > u64::from(u32::MAX) {
        return Err(UnsettleError::NotSettled);
    }
    match settle(alloc, file, Some(base as u32)) {
        Ok(again) => compared(alloc, &again.bytes, out, file),
        Err(error) => Err(unsettle_error(error)),
    }
}

/// What refuses a file is told as: these bytes aren't what is written for it.
fn unsettle_error(error: SettleError) -> UnsettleError
    ensures { result ≡ unsettle_error error }
{
    match error {
        SettleError::Memory => UnsettleError::Memory,
        _ => UnsettleError::NotSettled,
    }
}

/// The file, where what is written for it is these bytes.
fn compared(alloc: Global, again: &[u8], out: &[u8], file: &[u8]) -> Result<Vec<u8>, UnsettleError>
    ensures { IsCompared again.now out.now file.now (as_list (λ v. v.items) result) }
{
    if again == out {
        Ok(Vec::from_slice(alloc, file)?)
    } else {
        Err(UnsettleError::NotSettled)
    }
}
