//! Registers that the stub uses.
ghost use Rattle.std.specs.Prelude.{◌≡◌};
ghost use Rattle.loader_form.specs.Stub.{rex_byte, modrm_byte};

/// A register that the stub uses: one that takes a system call's number or an argument, or that a
/// call changes.
#[derive(Clone, Copy, Debug, PartialEq, Eq)]
pub(crate) enum Used {
    Rax,
    Rcx,
    Rdx,
    Rbx,
    Rsi,
    Rdi,
    Reg8,
    Reg9,
    Reg10,
    Reg11,
}

impl Used {
    /// The REX byte of a MOV between the register and memory (Intel SDM, volume 2, section 2.2.1).
    pub(crate) fn rex(self) -> u8
        ensures { result ≡ rex_byte self }
    {
        match self {
            Used::Rax => 0x48,
            Used::Rcx => 0x48,
            Used::Rdx => 0x48,
            Used::Rbx => 0x48,
            Used::Rsi => 0x48,
            Used::Rdi => 0x48,
            Used::Reg8 => 0x4C,
            Used::Reg9 => 0x4C,
            Used::Reg10 => 0x4C,
            Used::Reg11 => 0x4C,
        }
    }

    /// The register's ModRM byte, where the other operand is an address of 32 bits (Intel SDM,
    /// volume 2, section 2.1.5).
    pub(crate) fn modrm(self) -> u8
        ensures { result ≡ modrm_byte self }
    {
        match self {
            Used::Rax => 0x04,
            Used::Rcx => 0x0C,
            Used::Rdx => 0x14,
            Used::Rbx => 0x1C,
            Used::Rsi => 0x34,
            Used::Rdi => 0x3C,
            Used::Reg8 => 0x04,
            Used::Reg9 => 0x0C,
            Used::Reg10 => 0x14,
            Used::Reg11 => 0x1C,
        }
    }
}
