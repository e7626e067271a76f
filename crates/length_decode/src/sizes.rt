//! How many bytes follow, and which opcodes may stand where.
ghost use Rattle.std.specs.Prelude.{◌≡◌, true, Some, None};
ghost use Rattle.length_decode.specs.Parse as parse;
ghost use Rattle.length_decode.specs.Rules as rules;

use crate::byte_tables::Layout;
use crate::escape_bytes::Escape;
use crate::prefix_bytes::Lead;
use insn_tables::Imm;

/// Whether a VEX opcode may not follow the prefix bytes.
#[inline(always)]
pub(crate) fn bars_vex(lead: Lead) -> bool
    ensures { result ≡ rules.bars_vex lead }
{
    lead.prefixes.opsize
        || lead.prefixes.lock
        || lead.prefixes.repne
        || lead.prefixes.rep
        || lead.any_rex
}

/// Direct branches and near returns.
#[inline(always)]
fn is_branch(escape: Escape, opcode: u8) -> bool
    ensures { result ≡ rules.is_branch escape opcode }
{
    match escape {
        Escape::OneByte =>
            matches!(opcode, 0x70..=0x7f | 0xe0..=0xe3 | 0xc2 | 0xc3 | 0xe8 | 0xe9 | 0xeb),
        Escape::TwoByte => matches!(opcode, 0x80..=0x8f),
        _ => false,
    }
}

/// Whether the opcode may follow the prefix bytes.
#[inline(always)]
pub(crate) fn allows_opcode(lead: Lead, escape: Escape, opcode: u8) -> bool
    ensures { result ≡ rules.allows_opcode lead escape opcode }
{
    !(lead.prefixes.opsize && is_branch(escape, opcode))
}

/// Whether the ModRM byte may follow the opcode.
#[inline(always)]
pub(crate) fn allows_modrm(lead: Lead, escape: Escape, opcode: u8, modrm: u8) -> bool
    ensures { result ≡ rules.allows_modrm lead escape opcode modrm }
{
    let reg = modrm / 8 % 8;
    match (escape, opcode) {
        (Escape::OneByte, 0x8f) => reg == 0,
        (Escape::OneByte, 0xff) => !(lead.prefixes.opsize && (reg == 2 || reg == 4)),
        _ => true,
    }
}

/// A reg that the opcode may have with each prefix, and with which no group has an immediate.
#[inline(always)]
pub(crate) fn least_reg(escape: Escape, opcode: u8) -> u8
    ensures { result ≡ parse.least_reg escape opcode }
{
    match escape {
        Escape::OneByte if opcode == 0x8f => 0,
        _ => 3,
    }
}

/// Bytes of displacement behind the ModRM and the SIB byte.
#[inline(always)]
pub(crate) fn disp_size(modrm: u8, layout: Layout, sib: u8) -> usize
    requires layout { layout.disp ≡ rules.disp_size modrm None }
    requires sib { rules.needs_sib modrm ≡ true }
    ensures { result ≡ rules.disp_size modrm (Some sib) }
{
    if modrm / 64 == 0 && sib % 8 == 5 {
        4
    } else {
        usize::from(layout.disp)
    }
}

#[inline(always)]
fn full_size(lead: Lead) -> usize
    ensures { result ≡ rules.full_size lead }
{
    if lead.prefixes.opsize && !is_wide(lead) {
        2
    } else {
        4
    }
}

#[inline(always)]
fn is_wide(lead: Lead) -> bool
    ensures { result ≡ rules.is_wide lead }
{
    lead.rex / 8 % 2 == 1
}

/// Bytes of immediate, where `reg` is the ModRM byte's.
#[inline(always)]
pub(crate) fn imm_size(lead: Lead, imm: Imm, reg: u8) -> usize
    ensures { result ≡ rules.imm_size lead imm reg }
{
    match imm {
        Imm::NoImm => 0,
        Imm::I8 | Imm::Rel8 => 1,
        Imm::I16 => 2,
        Imm::I16I8 => 3,
        Imm::Rel32 => 4,
        Imm::Z => full_size(lead),
        Imm::V => if is_wide(lead) { 8 } else { full_size(lead) },
        Imm::Moffs => if lead.prefixes.addrsize { 4 } else { 8 },
        Imm::Group8 => if reg < 2 { 1 } else { 0 },
        Imm::GroupZ => if reg < 2 { full_size(lead) } else { 0 },
    }
}
