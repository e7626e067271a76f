//! Bits of the ModRM and REX bytes, and prefixes (Intel SDM, volume 2, sections 2.1.1, 2.1.3 and 2.2.1.2).
ghost use Rattle.std.specs.Prelude.{◌≡◌, ◌<◌};
ghost use Rattle.insn_form.specs.Classes as classes;

use length_decode::Parts;

/// The ModRM byte, or 0.
pub(crate) fn modrm(parts: &Parts) -> u8
    ensures { result ≡ classes.modrm_of parts.now }
{
    parts.modrm.unwrap_or(0)
}

pub(crate) fn mod_bits(parts: &Parts) -> u8
    ensures value { result ≡ classes.mod_of parts.now }
    ensures bound { result < 4 }
{
    modrm(parts) / 64
}

pub(crate) fn reg_bits(parts: &Parts) -> u8
    ensures value { result ≡ classes.reg_of parts.now }
    ensures bound { result < 8 }
{
    modrm(parts) / 8 % 8
}

pub(crate) fn rm_bits(parts: &Parts) -> u8
    ensures value { result ≡ classes.rm_of parts.now }
    ensures bound { result < 8 }
{
    modrm(parts) % 8
}

/// Whether an operand is relative to the next instruction: mod 0 and rm 5 (Intel SDM, volume 2, section 2.2.1.6).
pub fn has_rip(parts: &Parts) -> bool
    ensures { result ≡ classes.has_rip parts.now }
{
    mod_bits(parts) == 0 && rm_bits(parts) == 5
}

pub(crate) fn rex_w(parts: &Parts) -> u8
    ensures value { result ≡ classes.rex_w parts.now }
    ensures bound { result < 2 }
{
    parts.rex / 8 % 2
}

pub(crate) fn rex_r(parts: &Parts) -> u8
    ensures value { result ≡ classes.rex_r parts.now }
    ensures bound { result < 2 }
{
    parts.rex / 4 % 2
}

pub(crate) fn rex_x(parts: &Parts) -> u8
    ensures value { result ≡ classes.rex_x parts.now }
    ensures bound { result < 2 }
{
    parts.rex / 2 % 2
}

pub(crate) fn rex_b(parts: &Parts) -> u8
    ensures value { result ≡ classes.rex_b parts.now }
    ensures bound { result < 2 }
{
    parts.rex % 2
}

/// Whether there is a combination that ends the run: 64 with 65, F2 with F3, 67 with a RIP operand.
pub(crate) fn clashes(parts: &Parts) -> bool
    ensures { result ≡ classes.clashes parts.now }
{
    let prefixes = parts.prefixes;
    prefixes.fs && prefixes.gs
        || prefixes.repne && prefixes.rep
        || prefixes.addrsize && has_rip(parts)
}

/// Whether `F0`, `F2` or `F3` stands there.
pub(crate) fn repeats(parts: &Parts) -> bool
    ensures { result ≡ classes.repeats parts.now }
{
    parts.prefixes.lock || parts.prefixes.repne || parts.prefixes.rep
}

pub(crate) fn has_segment(parts: &Parts) -> bool
    ensures { result ≡ classes.has_segment parts.now }
{
    parts.prefixes.fs || parts.prefixes.gs
}
