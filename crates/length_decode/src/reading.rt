//! An instruction at the front of a window of at most 15 bytes, read from the front. Beside what was read, each step knows what the
//! prefix bytes say and how long the window is.
ghost use Rattle.std.specs.Prelude.{◌≡◌, ◌≤◌, ◌+◌, length, None, Err};
ghost use Rattle.length_decode.specs.Prefix.{lead_of};
ghost use Rattle.length_decode.specs.Rules as rules;
ghost use Rattle.length_decode.specs.Spelling.{opcode_at, disp_at};
ghost use Rattle.length_decode.specs.Parse as parse;
ghost use Rattle.length_decode.specs.Parse.{shape_from};
ghost use Rattle.length_decode.specs.Reading.{fields_of};

use crate::byte_tables::after_modrm;
use crate::escape_bytes::{Escape, least_after, row_after};
use crate::field_bytes::{Fields, Stop, parts};
use crate::instruction_parts::Shape;
use crate::prefix_bytes::Lead;
use crate::sizes::{allows_modrm, allows_opcode, bars_vex, disp_size, imm_size, least_reg};
use insn_tables::{Imm, TableRow};

/// The most bytes of an instruction (Intel SDM, volume 2, section 2.3.11).
pub(crate) const MOST_BYTES: usize = 15;

/// The answer where no instruction was read of a window of so many bytes.
#[inline(always)]
fn stopped(len: usize, stop: Stop) -> Shape
    requires { len ≤ 15 }
    ensures { result ≡ shape_from len (Err stop) }
{
    match stop {
        Stop::NoSpelling => Shape::Unknown,
        Stop::Missing(count) => {
            if count <= MOST_BYTES - len {
                Shape::Short
            } else {
                Shape::Unknown
            }
        }
    }
}

#[inline(always)]
fn with_tail<'a>(
    lead: Lead,
    len: usize,
    front: Fields<'a>,
    disp: usize,
    imm: usize,
    rest: &'a [u8],
) -> Shape
    requires window { len ≤ 15 }
    requires known { lead ≡ lead_of front.prefixes.now }
    requires room { disp_at (fields_of front) + length rest.now ≤ 15 }
    requires small_disp { disp ≤ 8 }
    requires small_imm { imm ≤ 8 }
    ensures { result ≡ shape_from len (parse.with_tail (fields_of front.entry) disp imm rest.now) }
{
    let size = disp + imm;
    if rest.len() < size {
        return stopped(len, Stop::Missing(size - rest.len()));
    }
    let fields = Fields {
        disp: &rest[..disp],
        imm: &rest[disp..size],
        ..front
    };
    Shape::Known(parts(fields, lead))
}

#[inline(always)]
fn with_sib<'a>(
    lead: Lead,
    len: usize,
    front: Fields<'a>,
    modrm: u8,
    imm: usize,
    rest: &'a [u8],
) -> Shape
    requires window { len ≤ 15 }
    requires known { lead ≡ lead_of front.prefixes.now }
    requires no_sib { front.sib ≡ None }
    requires room { disp_at (fields_of front) + length rest.now ≤ 15 }
    requires small_imm { imm ≤ 8 }
    ensures { result ≡ shape_from len (parse.with_sib (fields_of front.entry) modrm imm rest.now) }
{
    let layout = after_modrm(modrm);
    if !layout.sib {
        return with_tail(lead, len, front, usize::from(layout.disp), imm, rest);
    }
    match rest.split_first() {
        None => stopped(len, Stop::Missing(1 + disp_size(modrm, layout, 0) + imm)),
        Some((sib, rest)) => {
            let front = Fields {
                sib: Some(*sib),
                ..front
            };
            with_tail(lead, len, front, disp_size(modrm, layout, *sib), imm, rest)
        }
    }
}

#[inline(always)]
fn with_modrm<'a>(lead: Lead, len: usize, front: Fields<'a>, imm: Imm, rest: &'a [u8]) -> Shape
    requires window { len ≤ 15 }
    requires known { lead ≡ lead_of front.prefixes.now }
    requires no_sib { front.sib ≡ None }
    requires room { opcode_at (fields_of front) + 1 + length rest.now ≤ 15 }
    ensures { result ≡ shape_from len (parse.with_modrm lead (fields_of front.entry) imm rest.now) }
{
    match rest.split_first() {
        None => {
            let least = imm_size(lead, imm, least_reg(front.escape, front.opcode));
            stopped(len, Stop::Missing(1 + least))
        }
        Some((modrm, rest)) => {
            if allows_modrm(lead, front.escape, front.opcode, *modrm) {
                let size = imm_size(lead, imm, *modrm / 8 % 8);
                let front = Fields {
                    modrm: Some(*modrm),
                    ..front
                };
                with_sib(lead, len, front, *modrm, size, rest)
            } else {
                stopped(len, Stop::NoSpelling)
            }
        }
    }
}

#[inline(always)]
fn with_row<'a>(lead: Lead, len: usize, front: Fields<'a>, row: TableRow, rest: &'a [u8]) -> Shape
    requires window { len ≤ 15 }
    requires known { lead ≡ lead_of front.prefixes.now }
    requires no_modrm { front.modrm ≡ None }
    requires no_sib { front.sib ≡ None }
    requires room { opcode_at (fields_of front) + 1 + length rest.now ≤ 15 }
    ensures { result ≡ shape_from len (parse.with_row lead (fields_of front.entry) row rest.now) }
{
    if !row.known {
        stopped(len, Stop::NoSpelling)
    } else if row.modrm {
        with_modrm(lead, len, front, row.imm, rest)
    } else {
        with_tail(lead, len, front, 0, imm_size(lead, row.imm, 0), rest)
    }
}

#[inline(always)]
fn at_opcode<'a>(
    lead: Lead,
    len: usize,
    prefixes: &'a [u8],
    escape: Escape,
    rest: &'a [u8],
) -> Shape
    requires window { len ≤ 15 }
    requires known { lead ≡ lead_of prefixes.now }
    requires room { length prefixes.now + length (rules.escape_bytes escape) + length rest.now
        ≤ 15 }
    ensures { result ≡ shape_from len (parse.at_opcode lead prefixes.now escape rest.now) }
{
    match rest.split_first() {
        None => stopped(len, Stop::Missing(least_after(escape))),
        Some((opcode, rest)) => {
            if allows_opcode(lead, escape, *opcode) {
                let front = Fields {
                    prefixes,
                    escape,
                    opcode: *opcode,
                    modrm: None,
                    sib: None,
                    disp: &[],
                    imm: &[],
                };
                with_row(lead, len, front, row_after(escape, *opcode), rest)
            } else {
                stopped(len, Stop::NoSpelling)
            }
        }
    }
}

fn after_0f<'a>(lead: Lead, len: usize, prefixes: &'a [u8], rest: &'a [u8]) -> Shape
    requires window { len ≤ 15 }
    requires known { lead ≡ lead_of prefixes.now }
    requires room { length prefixes.now + 1 + length rest.now ≤ 15 }
    ensures { result ≡ shape_from len (parse.after_0f lead prefixes.now rest.now) }
{
    match rest.split_first() {
        None => stopped(len, Stop::Missing(1)),
        Some((0x38, rest)) => at_opcode(lead, len, prefixes, Escape::Byte38, rest),
        Some((0x3a, rest)) => at_opcode(lead, len, prefixes, Escape::Byte3A, rest),
        Some(_) => at_opcode(lead, len, prefixes, Escape::TwoByte, rest),
    }
}

fn after_c5<'a>(lead: Lead, len: usize, prefixes: &'a [u8], rest: &'a [u8]) -> Shape
    requires window { len ≤ 15 }
    requires known { lead ≡ lead_of prefixes.now }
    requires room { length prefixes.now + 1 + length rest.now ≤ 15 }
    ensures { result ≡ shape_from len (parse.after_c5 lead prefixes.now rest.now) }
{
    match rest.split_first() {
        None => stopped(len, Stop::Missing(2)),
        Some((first, rest)) => at_opcode(lead, len, prefixes, Escape::Vex2(*first), rest),
    }
}

fn after_map<'a>(lead: Lead, len: usize, prefixes: &'a [u8], first: u8, rest: &'a [u8]) -> Shape
    requires window { len ≤ 15 }
    requires known { lead ≡ lead_of prefixes.now }
    requires room { length prefixes.now + 2 + length rest.now ≤ 15 }
    ensures { result ≡ shape_from len (parse.after_map lead prefixes.now first rest.now) }
{
    match rest.split_first() {
        None => stopped(len, Stop::Missing(1 + least_after(Escape::Vex3(first, 0)))),
        Some((second, rest)) => at_opcode(lead, len, prefixes, Escape::Vex3(first, *second), rest),
    }
}

fn after_c4<'a>(lead: Lead, len: usize, prefixes: &'a [u8], rest: &'a [u8]) -> Shape
    requires window { len ≤ 15 }
    requires known { lead ≡ lead_of prefixes.now }
    requires room { length prefixes.now + 1 + length rest.now ≤ 15 }
    ensures { result ≡ shape_from len (parse.after_c4 lead prefixes.now rest.now) }
{
    match rest.split_first() {
        None => stopped(len, Stop::Missing(3)),
        Some((first, rest)) => {
            if matches!(*first % 32, 1..=3) {
                after_map(lead, len, prefixes, *first, rest)
            } else {
                stopped(len, Stop::NoSpelling)
            }
        }
    }
}

/// What stands in a window of so many bytes, whose prefix bytes are these, and say `lead`, and which goes on with the rest.
pub(crate) fn after_prefixes<'a>(
    lead: Lead,
    len: usize,
    prefixes: &'a [u8],
    rest: &'a [u8],
) -> Shape
    requires window { len ≤ 15 }
    requires known { lead ≡ lead_of prefixes.now }
    requires room { length prefixes.now + length rest.now ≤ 15 }
    ensures { result ≡ shape_from len (parse.after_prefixes lead prefixes.now rest.now) }
{
    match rest.split_first() {
        None => stopped(len, Stop::Missing(1)),
        Some((0x0f, rest)) => after_0f(lead, len, prefixes, rest),
        Some((0xc5, rest)) if !bars_vex(lead) => after_c5(lead, len, prefixes, rest),
        Some((0xc4, rest)) if !bars_vex(lead) => after_c4(lead, len, prefixes, rest),
        Some((0xc4 | 0xc5, _)) => stopped(len, Stop::NoSpelling),
        Some(_) => at_opcode(lead, len, prefixes, Escape::OneByte, rest),
    }
}
