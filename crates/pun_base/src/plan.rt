//! What a patch changes in the bytes of a file.
ghost use Rattle.std.specs.Prelude.{◌≡◌, ◌≤◌, Ok, length, ⊤};

use crate::byte_list::ByteList;
use std::alloc::AllocError;

/// One write: from the address `addr` on, the bytes `was` of the original become `now`.
///
/// Both lists have the same length, 1 to 16, which the type keeps.
#[derive(Debug, PartialEq, Eq, Drop)]
pub struct Write {
    pub addr: u32,
    pub was: ByteList,
    pub now: ByteList,
    ghost equal: { length was ≡ length now },
    ghost some: { 1 ≤ length now },
    ghost fits: { length now ≤ 16 },
}

impl Clone for Write {
    ghost is_clone = { λ write copy. copy ≡ write };

    ghost is_infallible = { λ _. ⊤ };

    fn clone(&self) -> Result<Self, AllocError>
        ensures { result ≡ Ok self.entry.now }
    {
        Ok(Write {
            addr: self.addr,
            was: self.was.copied(),
            now: self.now.copied(),
        })
    }
}
