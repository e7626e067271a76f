//! Code at its place.
ghost use Rattle.std.specs.Prelude.{◌≡◌, ◌+◌, ◌^◌, ◌<◌, ◌≤◌, length, Ok, ⊤};

use code_bytes::code::Code;
use pun_base::range::Range;
use std::alloc::AllocError;

/// The code of a trampoline, and the address of its first byte.
#[derive(Debug, PartialEq, Eq, Drop)]
pub struct Built {
    pub place: u32,
    pub code: Code,
}

impl Built {
    /// The addresses of the code.
    pub fn range(&self) -> Range
        requires some { 1 ≤ length self.now.code.bytes }
        requires low { self.now.place + length self.now.code.bytes < 2 ^ 32 }
        ensures lo { result.lo ≡ self.now.place }
        ensures hi { result.hi ≡ self.now.place + length self.now.code.bytes }
    {
        let len = self.code.bytes.as_slice().len() as u32;
        Range {
            lo: self.place,
            hi: self.place + len,
        }
    }
}

impl Clone for Built {
    ghost is_clone = { λ built copy. copy ≡ built };

    ghost is_infallible = { λ _. ⊤ };

    fn clone(&self) -> Result<Self, AllocError>
        ensures { result ≡ Ok self.now }
    {
        Ok(Built {
            place: self.place,
            code: self.code.clone()?,
        })
    }
}
