//! The bytes of an instruction, part by part.
ghost use Rattle.std.specs.Prelude.{◌≡◌, ◌≤◌, ◌+◌, length};
ghost use Rattle.length_decode.specs.Prefix.{lead_of};
ghost use Rattle.length_decode.specs.Spelling.{disp_at, parts_of};
ghost use Rattle.length_decode.specs.Reading.{fields_of};

use crate::escape_bytes::{Escape, map, size};
use crate::instruction_parts::Parts;
use crate::prefix_bytes::Lead;

/// The bytes of an instruction, part by part.
#[derive(Clone, Copy)]
pub struct Fields<'a> {
    pub prefixes: &'a [u8],
    pub escape: Escape,
    pub opcode: u8,
    pub modrm: Option<u8>,
    pub sib: Option<u8>,
    pub disp: &'a [u8],
    pub imm: &'a [u8],
}

/// Why no instruction was read.
#[derive(Clone, Copy, Debug, PartialEq, Eq)]
pub enum Stop {
    /// No instruction begins with these bytes.
    NoSpelling,
    /// Each instruction that begins with these bytes has at least this many bytes more, and one has no more.
    Missing(usize),
}

/// The parts of an instruction whose prefix bytes say `lead`.
#[inline(always)]
pub(crate) fn parts(fields: Fields, lead: Lead) -> Parts
    requires known { lead ≡ lead_of fields.prefixes.now }
    requires short { disp_at (fields_of fields) + length fields.disp.now + length fields.imm.now
        ≤ 15 }
    ensures { result ≡ parts_of (fields_of fields.entry) }
{
    let opcode_at = lead.count as u8 + size(fields.escape);
    let disp_at = opcode_at + 1 + u8::from(fields.modrm.is_some()) + u8::from(fields.sib.is_some());
    let disp_len = fields.disp.len() as u8;
    let imm_at = disp_at + disp_len;
    let imm_len = fields.imm.len() as u8;
    Parts {
        len: imm_at + imm_len,
        prefixes: lead.prefixes,
        rex: lead.rex,
        map: map(fields.escape),
        opcode_at,
        opcode: fields.opcode,
        modrm: fields.modrm,
        sib: fields.sib,
        disp_at,
        disp_len,
        imm_at,
        imm_len,
    }
}
