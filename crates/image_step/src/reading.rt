//! The script of a text.
ghost use Rattle.std.specs.Prelude.{◌≡◌, ◌-◌, ◌^◌, ◌<◌, true, IfOk, IfSome, length, option_map};
ghost use Rattle.cpu_state.specs.Script.{are_regions};
ghost use Rattle.image_step.specs.Answers.{ReadsScript, ReadsAs};
ghost use Rattle.image_step.specs.Drafts.{first_line};
ghost use Rattle.image_step.specs.Reading.{read_script_line};
ghost use Rattle.image_step.specs.Taking.{script_in};
ghost use Rattle.image_step.specs.Values.{script_value};
ghost use Rattle.image_step.specs.Views.{draft_value, parts_value};

use crate::draft::Draft;
use crate::error::ScriptError;
use crate::line_reading::read_line;
use crate::taking::take;
use cpu_state::script::Script;
use cpu_state::script_regions::{Region, Regions};
use cpu_state::world::{Entries, Entry, World};
use list_text::parts::split_at_first;
use std::alloc::{AllocError, Global};

/// What a script is made of.
#[derive(Drop)]
pub(crate) struct Parts {
    pub values: Vec<u64>,
    pub regions: Vec<Region>,
    pub entries: Vec<Entry>,
}

/// The first line of a text, where that ends with LF, and what stands after it.
pub(crate) fn first_line(text: &[u8]) -> Option<(&[u8], &[u8])>
    ensures value { option_map (λ x. (x.0.now, x.1.now)) result ≡ first_line text.now }
    ensures less { IfSome result (λ x. length x.1.now < length text.now) }
{
    let (line, later) = split_at_first(text, b'\n');
    if line.len() == text.len() {
        return None;
    }
    Some((line, later))
}

/// A draft with the first line of a text, where that goes on with it, and what stands behind it.
#[tactic(auto, unfolding(crate::specs::Reading::read_script_line))]
fn read_one<'a>(
    alloc: Global,
    draft: Draft,
    text: &'a [u8],
) -> Result<Option<(Draft, &'a [u8])>, AllocError>
    ensures value { IfOk result (λ found. option_map (λ x. (draft_value x.0, x.1.now)) found
        ≡ read_script_line (draft_value draft) text.now) }
    ensures less { IfOk result (λ found. IfSome found (λ x. length x.1.now < length text.now)) }
{
    let Some((line, later)) = first_line(text) else {
        return Ok(None);
    };
    let Some(line) = read_line(alloc, line)? else {
        return Ok(None);
    };
    let Some(next) = take(alloc, draft, line)? else {
        return Ok(None);
    };
    Ok(Some((next, later)))
}

/// The parts of a draft with its last line.
pub(crate) fn parts_of(draft: Draft) -> Option<Parts>
    ensures { option_map parts_value result ≡ script_in (draft_value draft) }
{
    match draft {
        Draft::Done(values, regions, entries) => Some(Parts {
            values,
            regions,
            entries,
        }),
        _ => None,
    }
}

/// The parts of a script, line by line.
fn read_parts(alloc: Global, text: &[u8]) -> Result<Parts, ScriptError>
    requires { length text.now < 2 ^ 32 - 1 }
    ensures { ReadsAs parts_value text.now result }
{
    let mut draft = Draft::Blank;
    let mut rest = text;
    let mut place: u32 = 1;
    while !rest.is_empty() {
        let Some((next, later)) = read_one(alloc, draft, rest)? else {
            return Err(ScriptError::BadScript { line: place });
        };
        draft = next;
        rest = later;
        place += 1;
    }
    match parts_of(draft) {
        Some(parts) => Ok(parts),
        None => Err(ScriptError::BadScript { line: place }),
    }
}

/// The script that these parts make.
pub(crate) fn script_of(parts: Parts) -> Script
    requires values { length parts.values.items ≡ 19 }
    requires regions { are_regions parts.regions.items ≡ true }
    ensures { script_value result ≡ parts_value parts }
{
    let mut regs = [0; 16];
    regs.copy_from_slice(&parts.values[..16]);
    Script {
        regs,
        flags: parts.values[16],
        fs: parts.values[17],
        gs: parts.values[18],
        regions: Regions::from_vec(parts.regions),
        world: World {
            entries: Entries::from_vec(parts.entries),
            place: 0,
        },
    }
}

/// The script of a text: registers, flags word, bases of fs and gs, regions, and entries of its world.
/// A text in no script's words is refused with the first line that no script with the lines before it has.
pub fn read_world(alloc: Global, text: &[u8]) -> Result<Script, ScriptError>
    requires { length text.now < 2 ^ 32 - 1 }
    ensures { ReadsScript text.now result }
{
    let parts = read_parts(alloc, text)?;
    Ok(script_of(parts))
}
