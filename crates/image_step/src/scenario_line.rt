//! Lines of a script with deliveries.
ghost use Rattle.std.specs.Prelude.{◌≡◌, ◌∷◌, ◌++◌, true, IfOk, IfSome};
ghost use Rattle.std.specs.Str.{bytes_eq};
ghost use Rattle.image_step.specs.ScenarioReading.{numbered_in, other_line, scenario_line_fits, scenario_line_of};
ghost use Rattle.image_step.specs.Spelling.{hex16};

use crate::line::Line;
use crate::line_reading::read_line;
use crate::line_writing::push_number;
use crate::word_reading::{is_word, read_number, split_word};
use std::alloc::{AllocError, Global};

/// A line of a script with deliveries.
#[derive(Debug, Drop)]
pub(crate) enum ScenarioLine {
    /// `e9world 2`
    Second,
    /// How many steps are made before a delivery.
    Due(u64),
    /// Where it leads.
    Rip(u64),
    /// A line that a script without deliveries has too.
    Plain(Line),
}

/// Whether a text is a word, a blank and a number, as it is spelled.
fn is_numbered(alloc: Global, text: &[u8], kind: &[u8], number: u64) -> Result<bool, AllocError>
    ensures { IfOk result (λ same. same ≡ bytes_eq (kind.now ++ (32 ∷ hex16 number)) text.now) }
{
    let mut spelled = Vec::new(alloc);
    spelled.extend_from_slice(kind)?;
    spelled.extend_from_slice(b" ")?;
    push_number(alloc, &mut spelled, number)?;
    Ok(spelled.as_slice() == text)
}

/// The number behind a word, where the text has both as they are spelled.
#[tactic(auto, unfolding(crate::specs::ScenarioReading::numbered_in))]
fn read_numbered(
    alloc: Global,
    text: &[u8],
    kind: &[u8],
    later: &[u8],
) -> Result<Option<u64>, AllocError>
    ensures { IfOk result (λ found. found ≡ numbered_in text.now kind.now later.now) }
{
    let Some(number) = read_number(later) else {
        return Ok(None);
    };
    if is_numbered(alloc, text, kind, number)? {
        Ok(Some(number))
    } else {
        Ok(None)
    }
}

/// The line whose text this is, where a script without deliveries has none such.
#[tactic(auto, unfolding(crate::specs::ScenarioReading::other_line))]
fn read_other_line(
    alloc: Global,
    text: &[u8],
    kind: &[u8],
    later: &[u8],
) -> Result<Option<ScenarioLine>, AllocError>
    ensures value { IfOk result (λ line. line ≡ other_line text.now kind.now later.now) }
    ensures fits { IfOk result (λ line. IfSome line (λ x. scenario_line_fits x ≡ true)) }
{
    if is_word(kind, "due") {
        return match read_numbered(alloc, text, kind, later)? {
            Some(step) => Ok(Some(ScenarioLine::Due(step))),
            None => Ok(None),
        };
    }
    if is_word(kind, "rip") {
        return match read_numbered(alloc, text, kind, later)? {
            Some(addr) => Ok(Some(ScenarioLine::Rip(addr))),
            None => Ok(None),
        };
    }
    if is_word(text, "e9world 2") {
        Ok(Some(ScenarioLine::Second))
    } else {
        Ok(None)
    }
}

/// The line whose text this is.
pub(crate) fn read_scenario_line(
    alloc: Global,
    text: &[u8],
) -> Result<Option<ScenarioLine>, AllocError>
    ensures value { IfOk result (λ line. line ≡ scenario_line_of text.now) }
    ensures fits { IfOk result (λ line. IfSome line (λ x. scenario_line_fits x ≡ true)) }
{
    if let Some(line) = read_line(alloc, text)? {
        return Ok(Some(ScenarioLine::Plain(line)));
    }
    let (kind, later) = split_word(text);
    read_other_line(alloc, text, kind, later)
}
