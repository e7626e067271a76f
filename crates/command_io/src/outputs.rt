//! Outputs of the commands that write.
ghost use Rattle.std.specs.Prelude.{◌≡◌, None};
ghost use Rattle.command_io.specs.Failing.{seen_as};
ghost use Rattle.command_io.specs.Works.{WritesOne};

use crate::ends::Failure;
use pun_base::desk::{Desk, PutError};
use pun_base::pieces::write_file;
use std::alloc::Global;

/// Writes one output, in pieces of at most 4,096 bytes, and lets go of its bytes.
pub fn write_output<'a, D: Desk>(
    alloc: Global,
    bytes: Vec<u8>,
    name: &'a str,
    desk: &mut D,
) -> Result<(), Failure<'a>>
    requires { (D.seen desk.old).writing ≡ None }
    ensures { WritesOne name.entry.now bytes.items (D.seen desk.old) (D.seen desk.new)
        (seen_as (λ u. u) result) }
{
    match write_file(alloc, desk, name, &bytes) {
        Ok(()) => Ok(()),
        Err(PutError::Failed) => Err(Failure::WriteFault(name)),
        Err(PutError::Memory) => Err(Failure::Memory),
    }
}
