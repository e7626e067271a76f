//! A guest that is patched on a desk of its own.
ghost use Rattle.std.specs.Prelude.{◌≡◌, IfOk};
ghost use Rattle.guest_findings.specs.Generating.{asked_of, IsReady, IsPatch};

use guest_gen::guest::Guest;
use patch_report::report::Report;
use pun_base::action::Action;
use pun_base::memory_desk::MemDesk;
use rewrite_core::rewrite::{RewriteError, rewrite};
use std::alloc::{AllocError, Global};

/// A patched file, and its report.
#[derive(Drop)]
pub struct Patched {
    pub out: Vec<u8>,
    pub report: Report,
}

/// Patches a guest at its sites, which are counted.
pub fn patch_guest(alloc: Global, guest: &Guest) -> Result<Patched, AllocError>
    requires { IsReady guest.now }
    ensures { IfOk result (λ made. IsPatch (asked_of guest.now) made.out.items made.report) }
{
    let mut desk = MemDesk::new(alloc, &[])?;
    let report = match rewrite(
        alloc,
        guest.elf(),
        guest.starts(),
        guest.sites(),
        Action::Count,
        &[],
        "OUT",
        &mut desk,
    ) {
        Ok(report) => report,
        Err(error) => return Err(only_memory(error)),
    };
    let Some(bytes) = desk.get("OUT") else {
        unreachable!()
    };
    Ok(Patched {
        out: Vec::from_slice(alloc, bytes)?,
        report,
    })
}

/// The want of memory that an error is.
fn only_memory(error: RewriteError) -> AllocError
    requires { error ≡ RewriteError.Memory }
{
    match error {
        RewriteError::Memory => AllocError,
        _ => unreachable!(),
    }
}
