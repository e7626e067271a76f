//! The state of one processor.
ghost use Rattle.std.specs.Prelude.{◌≡◌, ◌≤◌, IfErr};
ghost use Rattle.cpu_state.specs.Bytes.{code_at};
ghost use Rattle.cpu_state.specs.Regions.{cell_at, extents};
ghost use Rattle.cpu_state.specs.Numbers.{loaded, Stored};

use crate::memory::{Memory, NoByte};
use cpu_alu::Flags;
use pun_base::byte_list::ByteList;

/// Registers, instruction pointer, flags, segment bases and memory (Intel SDM, volume 1, section 3.4).
#[derive(Debug, Drop)]
pub struct State {
    /// rax, rcx, rdx, rbx, rsp, rbp, rsi, rdi, and r8 to r15.
    pub regs: [u64; 16],
    pub rip: u64,
    pub flags: Flags,
    /// The base of the segment fs.
    pub fs: u64,
    /// The base of the segment gs.
    pub gs: u64,
    pub mem: Memory,
}

/// What a state has apart from memory and the instruction pointer.
#[derive(Clone, Copy, Debug, PartialEq, Eq)]
pub struct Core {
    /// In the order of `State::regs`.
    pub regs: [u64; 16],
    pub flags: Flags,
    pub fs: u64,
    pub gs: u64,
}

impl State {
    ghost use Rattle.cpu_state.specs.Parts.{core_of};

    /// The state apart from memory and the instruction pointer.
    pub fn core(&self) -> Core
        ensures { result ≡ core_of self.now }
    {
        Core {
            regs: self.regs,
            flags: self.flags,
            fs: self.fs,
            gs: self.gs,
        }
    }

    /// The number of the `size` bytes from `addr` on, which have to be held with R.
    pub fn load(&self, addr: u64, size: u8) -> Result<u64, NoByte>
        requires { size ≤ 8 }
        ensures { result ≡ loaded (cell_at self.now.mem) addr size }
    {
        self.mem.load(addr, size)
    }

    /// Changes the `size` bytes from `addr` on, which have to be held with W, to those of a number.
    pub fn store(&mut self, addr: u64, size: u8, value: u64) -> Result<(), NoByte>
        ensures memory { Stored addr size value self.old.mem self.new.mem result }
        ensures extents { extents self.new.mem ≡ extents self.old.mem }
        ensures core { core_of self.new ≡ core_of self.old }
        ensures rip { self.new.rip ≡ self.old.rip }
        ensures unchanged { IfErr result (λ e. self.new ≡ self.old) }
    {
        self.mem.store(addr, size, value)
    }

    /// The executable bytes from the instruction pointer on, at most 15.
    pub fn fetch(&self) -> ByteList
        ensures { result ≡ code_at (cell_at self.now.mem) self.now.rip 15 }
    {
        self.mem.fetch(self.rip)
    }
}
