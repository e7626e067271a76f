//! Short lists of bytes.
ghost use Rattle.std.specs.Prelude.{◌≡◌, ◌≤◌, ◌==◌, Ok, [], length, ⊤};

use arrayvec::ArrayVec;
use std::alloc::AllocError;
use std::marker::Model;

/// At most sixteen bytes, which lie in the value itself: an instruction has at most fifteen.
#[derive(Debug, PartialEq, Eq, Drop)]
pub struct ByteList {
    bytes: ArrayVec<u8, 16>,
}

impl Model for ByteList {
    ghost use Rattle.std.specs.Prelude.{ℕ, List};

    ghost Value = { List ℕ };

    ghost view = { λ b. b.bytes.items };

    ghost inverse = { λ xs. record { bytes = record { items = xs } } };
}

impl ByteList {
    /// No byte.
    pub fn new() -> Self
        ensures { result ≡ [] }
    {
        ByteList {
            bytes: ArrayVec::new(),
        }
    }

    /// A list of these bytes.
    pub fn from_slice(bytes: &[u8]) -> Self
        requires fits { length bytes.now ≤ 16 }
        ensures { result ≡ bytes.now }
    {
        let mut list = ArrayVec::new();
        list.try_extend_from_slice(bytes).unwrap();
        ByteList { bytes: list }
    }

    /// The number of bytes.
    pub fn len(&self) -> usize
        ensures value { result ≡ length self.now }
        ensures fits { result ≤ 16 }
    {
        self.bytes.len()
    }

    /// Whether there is no byte.
    pub fn is_empty(&self) -> bool
        ensures { result ≡ (length self.now == 0) }
    {
        self.bytes.is_empty()
    }

    /// The bytes, in order.
    pub fn as_slice(&self) -> &[u8]
        ensures value { result.now ≡ self.now }
        ensures fits { length result.now ≤ 16 }
    {
        self.bytes.as_slice()
    }

    /// The same list once more.
    pub(crate) fn copied(&self) -> Self
        ensures { result ≡ self.now }
    {
        ByteList::from_slice(self.as_slice())
    }
}

impl Clone for ByteList {
    ghost is_clone = { λ list copy. copy ≡ list };

    ghost is_infallible = { λ _. ⊤ };

    fn clone(&self) -> Result<Self, AllocError>
        ensures { result ≡ Ok self.now }
    {
        Ok(self.copied())
    }
}
