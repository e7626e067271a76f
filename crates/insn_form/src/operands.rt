//! Operands, from the parts of an instruction (Intel SDM, volume 2, sections 2.1.3, 2.1.5 and 2.2.1).
ghost use Rattle.std.specs.Prelude.{◌≡◌, ◌≤◌};
ghost use Rattle.insn_form.specs.Filling as filling;

use crate::bits::{has_rip, mod_bits, reg_bits, rex_b, rex_r, rex_w, rex_x, rm_bits};
use crate::constants::{immediate, integer};
use crate::form::{MemForm, Seg, Spot, Value};
use crate::template::{Slot, Source};
use cpu_alu::Width;
use length_decode::Parts;

/// The parts of an instruction with its displacement and its immediate.
#[derive(Clone, Copy)]
pub(crate) struct Form<'a> {
    pub(crate) parts: Parts,
    pub(crate) disp: &'a [u8],
    pub(crate) imm: &'a [u8],
    ghost small: { parts.disp_len ≤ 4 },
}

fn operand_width(parts: &Parts) -> Width
    ensures { result ≡ filling.operand_width parts.now }
{
    if rex_w(parts) == 1 {
        Width::W64
    } else if parts.prefixes.opsize {
        Width::W16
    } else {
        Width::W32
    }
}

fn reg_code(parts: &Parts) -> u8
    ensures { result ≡ filling.reg_code parts.now }
{
    reg_bits(parts) + 8 * rex_r(parts)
}

fn rm_code(parts: &Parts) -> u8
    ensures { result ≡ filling.rm_code parts.now }
{
    rm_bits(parts) + 8 * rex_b(parts)
}

fn low_code(parts: &Parts) -> u8
    ensures { result ≡ filling.low_code parts.now }
{
    parts.opcode % 8 + 8 * rex_b(parts)
}

fn register(byte: bool, parts: &Parts, code: u8) -> Spot
    ensures { result ≡ filling.register byte parts.now code }
{
    if byte && parts.rex == 0 && 4 <= code && code <= 7 {
        Spot::High(code - 4)
    } else {
        Spot::Reg(code)
    }
}

fn segment(parts: &Parts) -> Seg
    ensures { result ≡ filling.segment parts.now }
{
    if parts.prefixes.fs {
        Seg::Fs
    } else if parts.prefixes.gs {
        Seg::Gs
    } else {
        Seg::Plain
    }
}

fn base(parts: &Parts) -> Option<u8>
    ensures { result ≡ filling.base_of parts.now parts.now.sib }
{
    match parts.sib {
        None if has_rip(parts) => None,
        None => Some(rm_code(parts)),
        Some(sib) if mod_bits(parts) == 0 && sib % 8 == 5 => None,
        Some(sib) => Some(sib % 8 + 8 * rex_b(parts)),
    }
}

fn index(parts: &Parts) -> Option<u8>
    ensures { result ≡ filling.index_of parts.now parts.now.sib }
{
    let sib = parts.sib?;
    let code = sib / 8 % 8 + 8 * rex_x(parts);
    if code == 4 { None } else { Some(code) }
}

fn scale(parts: &Parts) -> u8
    ensures { result ≡ filling.scale_of parts.now.sib }
{
    match parts.sib {
        None => 1,
        Some(sib) => match sib / 64 {
            0 => 1,
            1 => 2,
            2 => 4,
            _ => 8,
        },
    }
}

fn is_w8(width: Width) -> bool
    ensures { result ≡ filling.is_w8 width }
{
    match width {
        Width::W8 => true,
        Width::W16 | Width::W32 | Width::W64 => false,
    }
}

impl Form<'_> {
    /// The width of the operands, 8 bits in byte forms.
    pub(crate) fn width(&self, byte: bool) -> Width
        ensures { result ≡ filling.width_of byte self.now.parts }
    {
        if byte {
            Width::W8
        } else {
            operand_width(&self.parts)
        }
    }

    /// The register that ModRM:reg names.
    pub(crate) fn reg(&self) -> u8
        ensures { result ≡ filling.reg_code self.now.parts }
    {
        reg_code(&self.parts)
    }

    /// Bytes of ModRM, SIB and displacement.
    fn tail(&self) -> u8
        ensures { result ≡ filling.tail_of self.now.parts }
    {
        1 + u8::from(self.parts.sib.is_some()) + self.parts.disp_len
    }

    /// The operand in memory.
    pub(crate) fn memory(&self) -> MemForm
        ensures { result ≡ filling.mem_form self.now.parts self.now.disp.now }
    {
        MemForm {
            base: base(&self.parts),
            index: index(&self.parts),
            scale: scale(&self.parts),
            disp: integer(self.disp),
            rip: has_rip(&self.parts),
            seg: segment(&self.parts),
            short: self.parts.prefixes.addrsize,
            tail: self.tail(),
        }
    }

    /// ModRM:r/m, a register of a byte in byte forms.
    pub(crate) fn rm(&self, byte: bool) -> Spot
        ensures { result ≡ filling.rm_spot byte self.now.parts self.now.disp.now }
    {
        if mod_bits(&self.parts) == 3 {
            register(byte, &self.parts, rm_code(&self.parts))
        } else {
            Spot::Mem(self.memory())
        }
    }

    /// ModRM:r/m of this width.
    pub(crate) fn rm_of(&self, width: Width) -> Spot
        ensures { result ≡ filling.rm_spot (filling.is_w8 width) self.now.parts self.now.disp.now }
    {
        self.rm(is_w8(width))
    }

    pub(crate) fn spot(&self, byte: bool, slot: Slot) -> Spot
        ensures { result ≡ filling.slot_spot byte self.now.parts self.now.disp.now slot }
    {
        match slot {
            Slot::Rm => self.rm(byte),
            Slot::Reg => register(byte, &self.parts, reg_code(&self.parts)),
            Slot::Low => register(byte, &self.parts, low_code(&self.parts)),
            Slot::Accumulator => Spot::Reg(0),
        }
    }

    /// A number of this width.
    pub(crate) fn value(&self, width: Width, byte: bool, source: Source) -> Value
        ensures { result ≡ filling.source_value width byte self.now.parts self.now.disp.now
            self.now.imm.now source }
    {
        match source {
            Source::Slot(slot) => Value::Spot(self.spot(byte, slot)),
            Source::Immediate => Value::Imm(immediate(width, self.imm)),
            Source::Constant(number) => Value::Imm(u64::from(number)),
            Source::Cl => Value::Cl,
        }
    }

    /// The displacement of a RIP operand.
    pub(crate) fn rip_disp(&self) -> Option<i32>
        ensures { result ≡ filling.rip_disp self.now.parts self.now.disp.now }
    {
        if has_rip(&self.parts) {
            Some(integer(self.disp))
        } else {
            None
        }
    }

    /// The distance of a direct target.
    pub(crate) fn rel(&self) -> i32
        ensures { result ≡ filling.integer_of self.now.imm.now }
    {
        integer(self.imm)
    }
}
