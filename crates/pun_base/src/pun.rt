//! Bytes that a jump shares with what follows it.
ghost use Rattle.std.specs.Prelude.{◌≡◌};

use crate::byte_list::ByteList;

/// Bytes from the address `addr` on that a plan leaves as they are, and that must stay so.
#[derive(Debug, PartialEq, Eq, Drop)]
pub struct Pun {
    pub addr: u32,
    pub bytes: ByteList,
}

impl Pun {
    /// The same bytes at the same address.
    pub fn copied(&self) -> Pun
        ensures { result ≡ self.now }
    {
        Pun {
            addr: self.addr,
            bytes: ByteList::from_slice(self.bytes.as_slice()),
        }
    }
}

impl Default for Pun {
    /// No byte at address 0.
    fn default() -> Pun {
        Pun {
            addr: 0,
            bytes: ByteList::new(),
        }
    }
}
