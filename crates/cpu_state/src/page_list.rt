//! Lists of bytes of at most a page.
ghost use Rattle.std.specs.Prelude.{◌≡◌, ◌<◌, ◌≤◌, length};

use std::marker::Model;

/// 1 to 4,096 bytes.
#[derive(Debug, Drop)]
pub struct PageList {
    bytes: Vec<u8>,
}

impl Model for PageList {
    ghost use Rattle.std.specs.Prelude.{ℕ, List, ◌<◌, ◌≤◌, length};

    ghost Value = { List ℕ };

    ghost view = { λ p. p.bytes.items };

    ghost invariant = { λ p. (0 < length p.bytes.items) × (length p.bytes.items ≤ 4096) };
}

impl PageList {
    /// The list of these bytes.
    pub fn from_vec(bytes: Vec<u8>) -> Self
        requires some { 0 < length bytes.items }
        requires page { length bytes.items ≤ 4096 }
        ensures { result ≡ bytes.items }
    {
        PageList { bytes }
    }

    /// The bytes, in order.
    pub fn into_vec(self) -> Vec<u8>
        ensures { result.items ≡ self }
    {
        self.bytes
    }

    /// The bytes, in order.
    pub fn as_slice(&self) -> &[u8]
        ensures value { result.now ≡ self.now }
        ensures some { 0 < length self.now }
        ensures page { length self.now ≤ 4096 }
    {
        &self.bytes
    }
}
