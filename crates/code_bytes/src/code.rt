//! Machine code of a trampoline.
ghost use Rattle.std.specs.Prelude.{◌≡◌, ◌≤◌, Ok, length, ⊤};

use arrayvec::ArrayVec;
use std::alloc::AllocError;
use std::marker::Model;

/// The bytes of a trampoline's code: at most 128, which lie in the value itself.
#[derive(Debug, PartialEq, Eq, Drop)]
pub struct CodeBytes {
    bytes: ArrayVec<u8, 128>,
}

impl Model for CodeBytes {
    ghost use Rattle.std.specs.Prelude.{ℕ, List};

    ghost Value = { List ℕ };

    ghost view = { λ c. c.bytes.items };

    ghost inverse = { λ xs. record { bytes = record { items = xs } } };
}

impl CodeBytes {
    /// A list of these bytes.
    pub fn from_slice(bytes: &[u8]) -> Self
        requires fits { length bytes.now ≤ 128 }
        ensures { result ≡ bytes.now }
    {
        let mut list = ArrayVec::new();
        list.try_extend_from_slice(bytes).unwrap();
        CodeBytes { bytes: list }
    }

    /// The bytes, in order.
    pub fn as_slice(&self) -> &[u8]
        ensures value { result.now ≡ self.now }
        ensures fits { length result.now ≤ 128 }
    {
        self.bytes.as_slice()
    }
}

impl Clone for CodeBytes {
    ghost is_clone = { λ bytes copy. copy ≡ bytes };

    ghost is_infallible = { λ _. ⊤ };

    fn clone(&self) -> Result<Self, AllocError>
        ensures { result ≡ Ok self.now }
    {
        Ok(CodeBytes::from_slice(self.as_slice()))
    }
}

/// Code that stands at one place in memory, and whether it may go on to the byte after its last one.
#[derive(Debug, PartialEq, Eq, Drop)]
pub struct Code {
    pub bytes: CodeBytes,
    pub falls: bool,
}

impl Clone for Code {
    ghost is_clone = { λ code copy. copy ≡ code };

    ghost is_infallible = { λ _. ⊤ };

    fn clone(&self) -> Result<Self, AllocError>
        ensures { result ≡ Ok self.now }
    {
        Ok(Code {
            bytes: CodeBytes::from_slice(self.bytes.as_slice()),
            falls: self.falls,
        })
    }
}
