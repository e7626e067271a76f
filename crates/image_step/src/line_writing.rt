//! The text of each line.
ghost use Rattle.std.specs.Prelude.{◌≡◌, ◌<◌, ◌+◌, ◌^◌, ◌++◌, true, OnOk};
ghost use Rattle.hex.specs.Hex.{encode_lower};
ghost use Rattle.cpu_state.specs.Script.{is_permission};
ghost use Rattle.image_step.specs.Spelling.{address_word, bytes_text, hex16, line_text, name, permission, zeros_text};
ghost use Rattle.image_step.specs.Grammar.{line_fits};
ghost use Rattle.image_step.specs.declared.line.Line.TheVariants as line;

use crate::line::Line;
use crate::word_reading::name_text;
use cpu_state::script_regions::{Region, RegionBody};
use cpu_state::world::{MemWrite, Question};
use std::alloc::{AllocError, Global};

/// Appends sixteen hexadecimal digits.
#[tactic(auto, unfolding(crate::specs::Spelling::hex16))]
pub(crate) fn push_number(alloc: Global, out: &mut Vec<u8>, number: u64) -> Result<(), AllocError>
    ensures { OnOk result (out.new.items ≡ out.old.items ++ hex16 number) }
{
    let digits = hex::encode(alloc, number.to_be_bytes())?;
    out.extend_from_slice(digits.as_bytes())
}

/// Appends two hexadecimal digits a byte.
fn push_bytes(alloc: Global, out: &mut Vec<u8>, bytes: &[u8]) -> Result<(), AllocError>
    ensures { OnOk result (out.new.items ≡ out.old.items ++ encode_lower bytes.now) }
{
    let digits = hex::encode(alloc, bytes)?;
    out.extend_from_slice(digits.as_bytes())
}

/// Appends a name.
fn push_name(out: &mut Vec<u8>, place: usize) -> Result<(), AllocError>
    requires { place < 19 }
    ensures { OnOk result (out.new.items ≡ out.old.items ++ name place) }
{
    out.extend_from_slice(name_text(place).as_bytes())
}

/// The word of permissions.
#[tactic(auto, unfolding(crate::specs::Spelling::permission))]
fn permission_word(perms: u8) -> &'static [u8]
    requires { is_permission perms ≡ true }
    ensures { result.now ≡ permission perms }
{
    match perms {
        4 => b"r--",
        5 => b"r-x",
        6 => b"rw-",
        _ => b"rwx",
    }
}

/// Appends a name and a number.
fn push_value(alloc: Global, out: &mut Vec<u8>, name: usize, value: u64) -> Result<(), AllocError>
    requires { name < 19 }
    ensures { OnOk result (out.new.items ≡ out.old.items ++ line_text (line.Value name value)) }
{
    push_name(out, name)?;
    out.extend_from_slice(b" ")?;
    push_number(alloc, out, value)
}

/// Appends zeros by their ends.
fn push_zeros(
    alloc: Global,
    out: &mut Vec<u8>,
    lo: u64,
    perms: u8,
    count: u64,
) -> Result<(), AllocError>
    requires fits { lo + count < 2 ^ 64 }
    requires perms { is_permission perms ≡ true }
    ensures { OnOk result (out.new.items ≡ out.old.items ++ zeros_text lo perms count) }
{
    out.extend_from_slice(b"zero ")?;
    push_number(alloc, out, lo)?;
    out.extend_from_slice(b" ")?;
    push_number(alloc, out, lo + count)?;
    out.extend_from_slice(b" ")?;
    out.extend_from_slice(permission_word(perms))
}

/// Appends a region of bytes.
fn push_region_bytes(
    alloc: Global,
    out: &mut Vec<u8>,
    lo: u64,
    perms: u8,
    bytes: &[u8],
) -> Result<(), AllocError>
    requires { is_permission perms ≡ true }
    ensures { OnOk result (out.new.items ≡ out.old.items ++ bytes_text lo perms bytes.now) }
{
    out.extend_from_slice(b"bytes ")?;
    push_number(alloc, out, lo)?;
    out.extend_from_slice(b" ")?;
    out.extend_from_slice(permission_word(perms))?;
    out.extend_from_slice(b" ")?;
    push_bytes(alloc, out, bytes)
}

/// Appends a region.
fn push_region(alloc: Global, out: &mut Vec<u8>, region: &Region) -> Result<(), AllocError>
    requires { line_fits (line.Region region.now) ≡ true }
    ensures { OnOk result (out.new.items ≡ out.old.items ++ line_text (line.Region region.now)) }
{
    match &region.body {
        RegionBody::Zeros(count) => push_zeros(alloc, out, region.lo, region.perms, *count),
        RegionBody::Bytes(bytes) => {
            push_region_bytes(alloc, out, region.lo, region.perms, bytes.as_slice())
        }
    }
}

/// Appends an address, or that there is none.
fn push_address(alloc: Global, out: &mut Vec<u8>, address: Option<u64>) -> Result<(), AllocError>
    ensures { OnOk result (out.new.items ≡ out.old.items ++ address_word address) }
{
    match address {
        Some(address) => push_number(alloc, out, address),
        None => out.extend_from_slice(b"-"),
    }
}

/// Appends a question.
fn push_question(alloc: Global, out: &mut Vec<u8>, question: &Question) -> Result<(), AllocError>
    ensures { OnOk result (out.new.items ≡ out.old.items ++ line_text (line.Ask question.now)) }
{
    out.extend_from_slice(b"ask ")?;
    push_bytes(alloc, out, question.bytes.as_slice())?;
    out.extend_from_slice(b" ")?;
    push_address(alloc, out, question.addr)
}

/// Appends a write.
fn push_write(alloc: Global, out: &mut Vec<u8>, write: &MemWrite) -> Result<(), AllocError>
    ensures { OnOk result (out.new.items ≡ out.old.items ++ line_text (line.Mem write.now)) }
{
    out.extend_from_slice(b"mem ")?;
    push_number(alloc, out, write.addr)?;
    out.extend_from_slice(b" ")?;
    push_bytes(alloc, out, write.bytes.as_slice())
}

/// Appends what is given to a name.
fn push_set(alloc: Global, out: &mut Vec<u8>, name: usize, value: u64) -> Result<(), AllocError>
    requires { name < 19 }
    ensures { OnOk result (out.new.items ≡ out.old.items ++ line_text (line.Set name value)) }
{
    out.extend_from_slice(b"set ")?;
    push_value(alloc, out, name, value)
}

/// Appends a line without LF.
pub(crate) fn push_line(alloc: Global, out: &mut Vec<u8>, line: &Line) -> Result<(), AllocError>
    requires { line_fits line.now ≡ true }
    ensures { OnOk result (out.new.items ≡ out.old.items ++ line_text line.now) }
{
    match line {
        Line::Version => out.extend_from_slice(b"e9world 1"),
        Line::Value { name, value } => push_value(alloc, out, *name, *value),
        Line::Region(region) => push_region(alloc, out, region),
        Line::Ask(question) => push_question(alloc, out, question),
        Line::Set { name, value } => push_set(alloc, out, *name, *value),
        Line::Mem(write) => push_write(alloc, out, write),
        Line::End => out.extend_from_slice(b"end"),
    }
}
