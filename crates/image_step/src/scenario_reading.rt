//! The script of a text, with deliveries or without.
ghost use Rattle.std.specs.Prelude.{◌≡◌, ◌-◌, ◌^◌, ◌<◌, IfOk, IfSome, length, option_map};
ghost use Rattle.image_step.specs.ScenarioAnswers.{ReadsScenario, ReadsScenarioAs};
ghost use Rattle.image_step.specs.ScenarioReading.{read_scenario_line, scenario_in};
ghost use Rattle.image_step.specs.ScenarioViews.{scenario_draft_value, scenario_parts_value};

use crate::delivery::Due;
use crate::error::ScriptError;
use crate::reading::{Parts, first_line, parts_of, script_of};
use crate::scenario::Scenario;
use crate::scenario_draft::{ScenarioDraft, take_line};
use crate::scenario_line::read_scenario_line;
use std::alloc::{AllocError, Global};

/// What a script with deliveries is made of.
#[derive(Drop)]
pub(crate) struct ScenarioParts {
    pub dues: Vec<Due>,
    pub parts: Parts,
}

/// A draft with the first line of a text, where that goes on with it, and what stands behind it.
#[tactic(auto, unfolding(crate::specs::ScenarioReading::read_scenario_line))]
fn read_one<'a>(
    alloc: Global,
    draft: ScenarioDraft,
    text: &'a [u8],
) -> Result<Option<(ScenarioDraft, &'a [u8])>, AllocError>
    ensures value { IfOk result (λ found. option_map (λ x. (scenario_draft_value x.0, x.1.now)) found
        ≡ read_scenario_line (scenario_draft_value draft) text.now) }
    ensures less { IfOk result (λ found. IfSome found (λ x. length x.1.now < length text.now)) }
{
    let Some((line, later)) = first_line(text) else {
        return Ok(None);
    };
    let Some(line) = read_scenario_line(alloc, line)? else {
        return Ok(None);
    };
    let Some(next) = take_line(alloc, draft, line)? else {
        return Ok(None);
    };
    Ok(Some((next, later)))
}

/// The parts of a draft with its last line.
fn scenario_parts_of(draft: ScenarioDraft) -> Option<ScenarioParts>
    ensures { option_map scenario_parts_value result ≡ scenario_in (scenario_draft_value draft) }
{
    let ScenarioDraft::Inner(dues, draft) = draft else {
        return None;
    };
    let parts = parts_of(draft)?;
    Some(ScenarioParts { dues, parts })
}

/// The parts of a script with deliveries, line by line.
fn read_scenario_parts(alloc: Global, text: &[u8]) -> Result<ScenarioParts, ScriptError>
    requires { length text.now < 2 ^ 32 - 1 }
    ensures { ReadsScenarioAs scenario_parts_value text.now result }
{
    let mut draft = ScenarioDraft::Opened;
    let mut rest = text;
    let mut place: u32 = 1;
    while !rest.is_empty() {
        let Some((next, later)) = read_one(alloc, draft, rest)? else {
            return Err(ScriptError::BadScript { line: place });
        };
        draft = next;
        rest = later;
        place += 1;
    }
    match scenario_parts_of(draft) {
        Some(parts) => Ok(parts),
        None => Err(ScriptError::BadScript { line: place }),
    }
}

/// The script of a text, with deliveries or without.
/// A text in no script's words is refused with the first line that no script with the lines before it has.
pub fn read_scenario(alloc: Global, text: &[u8]) -> Result<Scenario, ScriptError>
    requires { length text.now < 2 ^ 32 - 1 }
    ensures { ReadsScenario text.now result }
{
    let parts = read_scenario_parts(alloc, text)?;
    Ok(Scenario {
        dues: parts.dues,
        script: script_of(parts.parts),
    })
}
