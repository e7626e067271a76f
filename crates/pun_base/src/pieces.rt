//! Files written in pieces.
ghost use Rattle.std.specs.Prelude.{◌≡◌, ℕ, List, None, Some, IsSome};
ghost use Rattle.pun_base.specs.Desk.{Puts, Fills};

use crate::desk::{Desk, PutError};
use std::alloc::Global;

/// How many bytes are put at once, at most.
const PIECE: usize = 4096;

/// Puts bytes in pieces of 4,096, the last of which may be shorter: what a `put` of all of them does.
/// Of no bytes nothing is put.
pub fn put_all<D: Desk>(alloc: Global, desk: &mut D, bytes: &[u8]) -> Result<(), PutError>
    requires { IsSome (D.seen desk.old).writing }
    ensures { (name : List ℕ) → (D.seen desk.old).writing ≡ Some name
        → Puts name bytes.now (D.seen desk.old) (D.seen desk.new) result }
{
    let mut at = 0;
    while at < bytes.len() {
        let size = (bytes.len() - at).min(PIECE);
        match desk.put(alloc, &bytes[at..at + size]) {
            Ok(()) => {}
            Err(error) => return Err(error),
        }
        at += size;
    }
    Ok(())
}

/// Writes a whole file in pieces: begins it, puts its bytes and ends it.
pub fn write_file<D: Desk>(
    alloc: Global,
    desk: &mut D,
    name: &str,
    bytes: &[u8],
) -> Result<(), PutError>
    requires { (D.seen desk.old).writing ≡ None }
    ensures { Fills name.now bytes.now (D.seen desk.old) (D.seen desk.new) result }
{
    match desk.begin(alloc, name) {
        Ok(()) => {}
        Err(error) => return Err(error),
    }
    match put_all(alloc, desk, bytes) {
        Ok(()) => {}
        Err(error) => return Err(error),
    }
    desk.end()
}
