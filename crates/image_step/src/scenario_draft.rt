//! What has been read of a script with deliveries, and one more line.
ghost use Rattle.std.specs.Prelude.{◌≡◌, [], ◌∷◌, ◌++◌, true, IfOk, length, map, option_map};
ghost use Rattle.cpu_alu.specs.FlagWord.{packed};
ghost use Rattle.image_step.specs.ScenarioReading.{came_with, front_with, inner, inner_with, opened_with, scenario_line_fits, scenario_taken, valued_with};
ghost use Rattle.image_step.specs.Taking.{heads};
ghost use Rattle.image_step.specs.ScenarioText.{due_value};
ghost use Rattle.image_step.specs.ScenarioViews.{coming_value, scenario_draft_value};
ghost use Rattle.image_step.specs.Views.{draft_value};

use crate::delivery::Due;
use crate::draft::Draft;
use crate::line::Line;
use crate::scenario_line::ScenarioLine;
use crate::taking::take;
use crate::word_reading::NAMES;
use cpu_alu::{Flags, unpack};
use cpu_state::state::Core;
use cpu_state::world::{MemWrite, MemWrites};
use image_runs::delivery::Delivery;
use std::alloc::{AllocError, Global};

/// A delivery that may have further writes.
#[derive(Drop)]
pub(crate) struct Coming {
    pub step: u64,
    pub core: Core,
    pub rip: u64,
    pub writes: Vec<MemWrite>,
}

/// What has been read: deliveries, and what goes on.
#[derive(Drop)]
pub(crate) enum ScenarioDraft {
    Opened,
    /// The version.
    Front,
    /// Deliveries, and one's number and values.
    Valued(Vec<Due>, u64, Vec<u64>),
    /// Deliveries, and the one that goes on.
    Came(Vec<Due>, Coming),
    /// All deliveries, and the script.
    Inner(Vec<Due>, Draft),
}

/// The flags of a flags word.
fn flags_of(word: u64) -> Flags
    ensures { packed result ≡ word }
{
    unpack(word)
}

/// Registers, flags and bases of nineteen values.
fn core_of(values: &[u64]) -> Core
    requires { length values.now ≡ 19 }
    ensures { result.regs ++ (packed result.flags ∷ result.fs ∷ result.gs ∷ []) ≡ values.now }
{
    let mut regs = [0; 16];
    regs.copy_from_slice(&values[..16]);
    Core {
        regs,
        flags: flags_of(values[16]),
        fs: values[17],
        gs: values[18],
    }
}

/// The delivery that one which goes on is in the end.
fn finished(coming: Coming) -> Due
    ensures { due_value result ≡ coming_value coming }
{
    let delivery = Delivery {
        core: coming.core,
        rip: coming.rip,
        writes: MemWrites::from_vec(coming.writes),
    };
    Due {
        step: coming.step,
        delivery,
    }
}

/// Nothing of a script behind these deliveries but its version.
fn begun(alloc: Global, dues: Vec<Due>) -> ScenarioDraft
    ensures { scenario_draft_value result ≡ inner (map due_value dues.items) (heads []) }
{
    ScenarioDraft::Inner(dues, Draft::Heads(Vec::new(alloc)))
}

fn take_first(alloc: Global, line: ScenarioLine) -> Option<ScenarioDraft>
    ensures { option_map scenario_draft_value result ≡ opened_with line }
{
    match line {
        ScenarioLine::Second => Some(ScenarioDraft::Front),
        ScenarioLine::Plain(Line::Version) => Some(begun(alloc, Vec::new(alloc))),
        _ => None,
    }
}

fn take_due(alloc: Global, line: ScenarioLine) -> Option<ScenarioDraft>
    ensures { option_map scenario_draft_value result ≡ front_with line }
{
    match line {
        ScenarioLine::Due(step) => {
            Some(ScenarioDraft::Valued(Vec::new(alloc), step, Vec::new(alloc)))
        }
        _ => None,
    }
}

fn take_value(
    alloc: Global,
    dues: Vec<Due>,
    step: u64,
    mut values: Vec<u64>,
    line: ScenarioLine,
) -> Result<Option<ScenarioDraft>, AllocError>
    ensures { IfOk result (λ next. option_map scenario_draft_value next
        ≡ valued_with (map due_value dues.items) step values.items line) }
{
    match line {
        ScenarioLine::Plain(Line::Value { name, value }) => {
            if name != values.len() {
                return Ok(None);
            }
            values.push(value)?;
            Ok(Some(ScenarioDraft::Valued(dues, step, values)))
        }
        ScenarioLine::Rip(rip) => {
            if values.len() != NAMES {
                return Ok(None);
            }
            let coming = Coming {
                step,
                core: core_of(&values),
                rip,
                writes: Vec::new(alloc),
            };
            Ok(Some(ScenarioDraft::Came(dues, coming)))
        }
        _ => Ok(None),
    }
}

fn take_behind(
    alloc: Global,
    mut dues: Vec<Due>,
    mut coming: Coming,
    line: ScenarioLine,
) -> Result<Option<ScenarioDraft>, AllocError>
    ensures { IfOk result (λ next. option_map scenario_draft_value next
        ≡ came_with (map due_value dues.items) (coming_value coming) line) }
{
    match line {
        ScenarioLine::Plain(Line::Mem(write)) => {
            coming.writes.push(write)?;
            Ok(Some(ScenarioDraft::Came(dues, coming)))
        }
        ScenarioLine::Plain(Line::Version) => {
            dues.push(finished(coming))?;
            Ok(Some(begun(alloc, dues)))
        }
        ScenarioLine::Due(step) => {
            if step < coming.step {
                return Ok(None);
            }
            dues.push(finished(coming))?;
            Ok(Some(ScenarioDraft::Valued(dues, step, Vec::new(alloc))))
        }
        _ => Ok(None),
    }
}

fn take_inner(
    alloc: Global,
    dues: Vec<Due>,
    draft: Draft,
    line: ScenarioLine,
) -> Result<Option<ScenarioDraft>, AllocError>
    requires { scenario_line_fits line ≡ true }
    ensures { IfOk result (λ next. option_map scenario_draft_value next
        ≡ inner_with (map due_value dues.items) (draft_value draft) line) }
{
    let ScenarioLine::Plain(line) = line else {
        return Ok(None);
    };
    match take(alloc, draft, line)? {
        Some(next) => Ok(Some(ScenarioDraft::Inner(dues, next))),
        None => Ok(None),
    }
}

/// A draft with one more line, where that goes on with it.
pub(crate) fn take_line(
    alloc: Global,
    draft: ScenarioDraft,
    line: ScenarioLine,
) -> Result<Option<ScenarioDraft>, AllocError>
    requires { scenario_line_fits line ≡ true }
    ensures { IfOk result (λ next. option_map scenario_draft_value next
        ≡ scenario_taken (scenario_draft_value draft) line) }
{
    match draft {
        ScenarioDraft::Opened => Ok(take_first(alloc, line)),
        ScenarioDraft::Front => Ok(take_due(alloc, line)),
        ScenarioDraft::Valued(dues, step, values) => take_value(alloc, dues, step, values, line),
        ScenarioDraft::Came(dues, coming) => take_behind(alloc, dues, coming, line),
        ScenarioDraft::Inner(dues, draft) => take_inner(alloc, dues, draft, line),
    }
}
