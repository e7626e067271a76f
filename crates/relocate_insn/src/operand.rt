//! The operand of an instruction that is moved (Intel SDM, volume 2, sections 2.1.3, 2.1.5 and 2.2.1).
ghost use Rattle.std.specs.Prelude.{◌≡◌, ◌+◌, ◌%◌, ◌≤◌, ◌<◌, ◌^◌, ◌==◌, ◌++◌, true, length, take, drop};
ghost use Rattle.std.specs.Option.{option_to_list};
ghost use Rattle.length_decode.specs.Spelling.{Fields, IsInstruction, IsSpelling, spelling};
ghost use Rattle.insn_form.specs.Classes as classes;
ghost use Rattle.insn_form.specs.Filling.{integer_of};
ghost use Rattle.insn_form.specs.Displacing.{goes_to};
ghost use Rattle.insn_form.specs.Moved as moved;
ghost use Rattle.relocate_insn.specs.Relocating as relocating;

use crate::writer::CodeWriter;
use length_decode::Parts;

/// An instruction that is moved: its bytes, their parts, and the address behind it.
#[derive(Clone, Copy)]
pub(crate) struct Source<'a> {
    pub(crate) bytes: &'a [u8],
    pub(crate) parts: Parts,
    pub(crate) next: u32,
}

/// A displacement of four bytes.
fn displacement(bytes: &[u8]) -> i32
    requires { length bytes.now ≡ 4 }
    ensures { result ≡ integer_of bytes.now }
{
    i32::from_le_bytes([bytes[0], bytes[1], bytes[2], bytes[3]])
}

/// The address that the four bytes from `at` on name, counted from `next`.
fn named_at(bytes: &[u8], at: usize, next: u32) -> u64
    requires { at + 4 ≤ length bytes.now }
    ensures { result ≡ goes_to next (integer_of (take 4 (drop at bytes.now))) }
{
    let (_, rest) = bytes.split_at(at);
    let disp = displacement(&rest[..4]);
    u64::from(next).wrapping_add(i64::from(disp).cast_unsigned())
}

/// The bits of ModRM that tell a register from memory.
fn mod_bits(parts: &Parts) -> u8
    ensures { result ≡ classes.mod_of parts.now }
{
    parts.modrm.unwrap_or(0) / 64
}

/// Whether an operand is relative to the next instruction.
fn has_rip(parts: &Parts) -> bool
    ensures { result ≡ classes.has_rip parts.now }
{
    mod_bits(parts) == 0 && parts.modrm.unwrap_or(0) % 8 == 5
}

/// ModRM with the register rax.
fn load_modrm(parts: &Parts) -> u8
    ensures { result ≡ relocating.load_modrm (classes.modrm_of parts.now) }
{
    let modrm = parts.modrm.unwrap_or(0);
    modrm / 64 * 64 + modrm % 8
}

/// Writes the prefix bytes of a load: those of an operand in memory, and REX with W.
fn put_load_prefixes(code: &mut CodeWriter, parts: &Parts)
    requires { length code.old ≤ 100 }
    ensures few { length code.new ≤ length code.old + 3 }
    ensures code { code.new ≡ code.old ++ relocating.load_prefixes
        (classes.mod_of parts.now == 3) parts.now.prefixes.fs parts.now.prefixes.gs
        parts.now.prefixes.addrsize (parts.now.rex % 4) }
{
    if mod_bits(parts) != 3 {
        put_memory_prefixes(code, parts);
    }
    code.put(&[0x48 + parts.rex % 4]);
}

/// Writes 64 or 65 and 67, where they stand before the instruction.
fn put_memory_prefixes(code: &mut CodeWriter, parts: &Parts)
    requires { length code.old ≤ 100 }
    ensures few { length code.new ≤ length code.old + 2 }
    ensures code { code.new ≡ code.old ++ relocating.memory_prefixes parts.now.prefixes.fs
        parts.now.prefixes.gs parts.now.prefixes.addrsize }
{
    if parts.prefixes.fs {
        code.put(&[0x64]);
    } else if parts.prefixes.gs {
        code.put(&[0x65]);
    }
    if parts.prefixes.addrsize {
        code.put(&[0x67]);
    }
}

/// Writes the SIB byte, if there is one.
fn put_sib(code: &mut CodeWriter, sib: Option<u8>)
    requires { length code.old ≤ 110 }
    ensures few { length code.new ≤ length code.old + 1 }
    ensures code { code.new ≡ code.old ++ option_to_list sib }
{
    if let Some(sib) = sib {
        code.put(&[sib]);
    }
}

/// How many bytes a load of the operand has.
fn load_size(parts: &Parts) -> u8
    requires { parts.now.disp_len ≤ 4 }
    ensures value { result ≡ relocating.load_bytes parts.now }
    ensures few { result ≤ 10 }
{
    if mod_bits(parts) == 3 {
        3
    } else {
        let prefixes = u8::from(parts.prefixes.fs || parts.prefixes.gs)
            + u8::from(parts.prefixes.addrsize);
        3 + prefixes + u8::from(parts.sib.is_some()) + parts.disp_len
    }
}

impl Source<'_> {
    /// The address that a RIP operand names.
    fn named(&self) -> u64
        requires spelled { IsSpelling self.now.bytes.now self.now.parts }
        requires rip { classes.has_rip self.now.parts ≡ true }
        ensures { (f : Fields) → IsInstruction f → self.now.bytes.now ≡ spelling f
            → result ≡ moved.named f self.now.next }
    {
        named_at(self.bytes, usize::from(self.parts.disp_at), self.next)
    }

    /// Writes the displacement as it is in front of `after`.
    fn put_displacement(&self, code: &mut CodeWriter, after: u32)
        requires spelled { IsSpelling self.now.bytes.now self.now.parts }
        requires room { length code.old ≤ 110 }
        requires after { after < 2 ^ 31 }
        ensures few { length code.new ≤ length code.old + 4 }
        ensures code { (f : Fields) → IsInstruction f → self.now.bytes.now ≡ spelling f
            → code.new ≡ code.old ++ relocating.moved_disp f self.now.next after }
    {
        if has_rip(&self.parts) {
            let target = (self.named() % 0x1_0000_0000) as u32;
            code.put_relative(after, target);
        } else {
            let (_, rest) = self.bytes.split_at(usize::from(self.parts.disp_at));
            code.put(&rest[..usize::from(self.parts.disp_len)]);
        }
    }

    /// Writes the instruction as it is at a place.
    pub(crate) fn put_copy(&self, code: &mut CodeWriter, place: u32)
        requires spelled { IsSpelling self.now.bytes.now self.now.parts }
        requires room { length code.old ≤ 60 }
        requires place { place + 15 < 2 ^ 31 }
        ensures few { length code.new ≤ length code.old + 15 }
        ensures code { (f : Fields) → IsInstruction f → self.now.bytes.now ≡ spelling f
            → code.new ≡ code.old ++ relocating.copy_of f self.now.next place }
    {
        let (front, _) = self.bytes.split_at(usize::from(self.parts.disp_at));
        let (_, rest) = self.bytes.split_at(usize::from(self.parts.imm_at));
        code.put(front);
        self.put_displacement(code, place + u32::from(self.parts.len));
        code.put(rest);
    }

    /// Writes, at a place, a load of the operand into rax.
    pub(crate) fn put_load(&self, code: &mut CodeWriter, place: u32)
        requires spelled { IsSpelling self.now.bytes.now self.now.parts }
        requires room { length code.old ≤ 90 }
        requires place { place + 15 < 2 ^ 31 }
        ensures code { (f : Fields) → IsInstruction f → self.now.bytes.now ≡ spelling f
            → code.new ≡ code.old ++ spelling
            (relocating.load_of f self.now.next (place + relocating.load_size f self.now.next)) }
        ensures few { length code.new ≤ length code.old + 10 }
    {
        put_load_prefixes(code, &self.parts);
        code.put(&[0x8B, load_modrm(&self.parts)]);
        put_sib(code, self.parts.sib);
        self.put_displacement(code, place + u32::from(load_size(&self.parts)));
    }
}
