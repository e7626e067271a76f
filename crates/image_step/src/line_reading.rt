//! The line that a text is the text of.
ghost use Rattle.std.specs.Prelude.{◌≡◌, IfOk, IfSome, true};
ghost use Rattle.image_step.specs.Grammar.{line_fits};
ghost use Rattle.image_step.specs.Reading.{ask_in, line_behind, line_of, mem_in, region_in, set_in, value_in, zeros_in};

use crate::grammar::{MOST_BYTES, is_fitting};
use crate::line::Line;
use crate::line_writing::push_line;
use crate::word_reading::{
    is_word, read_address, read_bytes, read_name, read_number, read_permission, split_word,
};
use cpu_state::page_list::PageList;
use cpu_state::script_regions::{Region, RegionBody};
use cpu_state::world::{MemWrite, Question};
use pun_base::byte_list::ByteList;
use pun_base::limits::INSTRUCTION_MAX;
use std::alloc::{AllocError, Global};

#[tactic(auto, unfolding(crate::specs::Reading::zeros_in))]
fn read_zeros(text: &[u8]) -> Option<Line>
    ensures { result ≡ zeros_in text.now }
{
    let (lo, later) = split_word(text);
    let (hi, perms) = split_word(later);
    let lo = read_number(lo)?;
    let hi = read_number(hi)?;
    let perms = read_permission(perms);
    if lo >= hi {
        return None;
    }
    let body = RegionBody::Zeros(hi - lo);
    Some(Line::Region(Region { lo, perms, body }))
}

#[tactic(auto, unfolding(crate::specs::Reading::region_in))]
fn read_region(alloc: Global, text: &[u8]) -> Result<Option<Line>, AllocError>
    ensures { IfOk result (λ line. line ≡ region_in text.now) }
{
    let (lo, later) = split_word(text);
    let (perms, bytes) = split_word(later);
    let Some(lo) = read_number(lo) else {
        return Ok(None);
    };
    let Some(bytes) = read_bytes(alloc, bytes, MOST_BYTES)? else {
        return Ok(None);
    };
    let perms = read_permission(perms);
    let body = RegionBody::Bytes(PageList::from_vec(bytes));
    Ok(Some(Line::Region(Region { lo, perms, body })))
}

#[tactic(auto, unfolding(crate::specs::Reading::ask_in))]
fn read_ask(alloc: Global, text: &[u8]) -> Result<Option<Line>, AllocError>
    ensures { IfOk result (λ line. line ≡ ask_in text.now) }
{
    let (bytes, addr) = split_word(text);
    let Some(bytes) = read_bytes(alloc, bytes, INSTRUCTION_MAX as usize)? else {
        return Ok(None);
    };
    let Some(addr) = read_address(addr) else {
        return Ok(None);
    };
    let bytes = ByteList::from_slice(bytes.as_slice());
    Ok(Some(Line::Ask(Question { bytes, addr })))
}

#[tactic(auto, unfolding(crate::specs::Reading::set_in))]
fn read_set(text: &[u8]) -> Option<Line>
    ensures { result ≡ set_in text.now }
{
    let (name, value) = split_word(text);
    let name = read_name(name)?;
    let value = read_number(value)?;
    Some(Line::Set { name, value })
}

#[tactic(auto, unfolding(crate::specs::Reading::mem_in))]
fn read_mem(alloc: Global, text: &[u8]) -> Result<Option<Line>, AllocError>
    ensures { IfOk result (λ line. line ≡ mem_in text.now) }
{
    let (addr, bytes) = split_word(text);
    let Some(addr) = read_number(addr) else {
        return Ok(None);
    };
    let Some(bytes) = read_bytes(alloc, bytes, MOST_BYTES)? else {
        return Ok(None);
    };
    let bytes = PageList::from_vec(bytes);
    Ok(Some(Line::Mem(MemWrite { addr, bytes })))
}

#[tactic(auto, unfolding(crate::specs::Reading::value_in))]
fn read_value(name: &[u8], text: &[u8]) -> Option<Line>
    ensures { result ≡ value_in name.now text.now }
{
    let name = read_name(name)?;
    let value = read_number(text)?;
    Some(Line::Value { name, value })
}

/// The line of the kind that the first word names.
#[tactic(auto, unfolding(crate::specs::Reading::line_behind))]
fn read_behind(alloc: Global, kind: &[u8], text: &[u8]) -> Result<Option<Line>, AllocError>
    ensures { IfOk result (λ line. line ≡ line_behind kind.now text.now) }
{
    if is_word(kind, "e9world") {
        Ok(Some(Line::Version))
    } else if is_word(kind, "zero") {
        Ok(read_zeros(text))
    } else if is_word(kind, "bytes") {
        read_region(alloc, text)
    } else if is_word(kind, "ask") {
        read_ask(alloc, text)
    } else if is_word(kind, "set") {
        Ok(read_set(text))
    } else if is_word(kind, "mem") {
        read_mem(alloc, text)
    } else if is_word(kind, "end") {
        Ok(Some(Line::End))
    } else {
        Ok(read_value(kind, text))
    }
}

/// The line whose text this is.
#[tactic(auto, unfolding(crate::specs::Reading::line_of))]
pub(crate) fn read_line(alloc: Global, text: &[u8]) -> Result<Option<Line>, AllocError>
    ensures value { IfOk result (λ line. line ≡ line_of text.now) }
    ensures fits { IfOk result (λ line. IfSome line (λ x. line_fits x ≡ true)) }
{
    let (kind, later) = split_word(text);
    let Some(line) = read_behind(alloc, kind, later)? else {
        return Ok(None);
    };
    if !is_fitting(&line) {
        return Ok(None);
    }
    let mut spelled = Vec::new(alloc);
    push_line(alloc, &mut spelled, &line)?;
    if spelled.as_slice() == text {
        Ok(Some(line))
    } else {
        Ok(None)
    }
}
