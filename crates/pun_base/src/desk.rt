//! Where named files are read and written.
ghost use Rattle.std.specs.Prelude.{◌≡◌, ℕ, List, None, Some, IsSome};
ghost use Rattle.pun_base.specs.Shown.{DeskState};
ghost use Rattle.pun_base.specs.Desk.{Begins, Puts, Ends, Reads, as_list};

use std::alloc::Global;
use thiserror::Error;

/// Why a file wasn't read.
#[derive(Debug, Drop, Error)]
pub enum ReadError {
    /// The outside failed.
    #[error("the file can't be read")]
    Failed,
    /// The file has more bytes than were asked for: its length, or where only a part of it was read, how
    /// many bytes were.
    #[error("the file is too long: {len} bytes")]
    TooLong { len: u64 },
    #[error("out of memory")]
    Memory,
}

/// Why bytes weren't written.
#[derive(Debug, Drop, Error)]
pub enum PutError {
    /// The outside failed.
    #[error("the bytes can't be written")]
    Failed,
    #[error("out of memory")]
    Memory,
}

/// Where named files are read and written, one at a time.
pub trait Desk {
    /// What the desk shows.
    ghost seen: { Self → DeskState };

    /// The bytes of a file, which are at most `most`.
    fn read(&mut self, alloc: Global, name: &str, most: u64) -> Result<Vec<u8>, ReadError>
        ensures { Reads name.now most (seen self.old) (seen self.new) (as_list (λ v. v.items) result) };

    /// Begins to write a file, which is empty then.
    fn begin(&mut self, alloc: Global, name: &str) -> Result<(), PutError>
        requires { (seen self.old).writing ≡ None }
        ensures { Begins name.now (seen self.old) (seen self.new) result };

    /// Appends bytes to the file that is being written.
    fn put(&mut self, alloc: Global, bytes: &[u8]) -> Result<(), PutError>
        requires { IsSome (seen self.old).writing }
        ensures { (name : List ℕ) → (seen self.old).writing ≡ Some name
            → Puts name bytes.now (seen self.old) (seen self.new) result };

    /// Ends the file that is being written. It never answers `Memory`.
    fn end(&mut self) -> Result<(), PutError>
        requires { IsSome (seen self.old).writing }
        ensures { Ends (seen self.old) (seen self.new) result };
}
