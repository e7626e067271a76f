//! A draft with one more line.
ghost use Rattle.std.specs.Prelude.{◌≡◌, ◌<◌, ◌≤◌, true, IfOk, drop, length, map, option_map};
ghost use Rattle.image_step.specs.Taking.{are_none, fresh, may_set, taken, taken_entry, taken_first, taken_region, taken_value};
ghost use Rattle.image_step.specs.Grammar.{line_fits};
ghost use Rattle.image_step.specs.Values.{entry_value};
ghost use Rattle.image_step.specs.Views.{current_value, draft_value};

use crate::draft::{Current, Draft};
use crate::grammar::are_regions;
use crate::line::Line;
use crate::word_reading::NAMES;
use cpu_state::script_regions::Region;
use cpu_state::world::{Answer, Entry, MemWrites, Question};
use std::alloc::{AllocError, Global};

/// An entry whose answer gives nothing so far.
fn fresh(alloc: Global, question: Question) -> Current
    ensures { current_value result ≡ fresh question }
{
    Current {
        question,
        given: [None; NAMES],
        writes: Vec::new(alloc),
    }
}

/// Whether nothing is given to the names from a place on.
fn are_none(given: &[Option<u64>], place: usize) -> bool
    requires { place ≤ length given.now }
    ensures { result ≡ are_none (drop place given.now) }
{
    given[place..].iter().all(|value| value.is_none())
}

/// Whether nothing is given to the names from a place on, and nothing is written.
fn may_set(current: &Current, place: usize) -> bool
    requires { place < 19 }
    ensures { result ≡ may_set place (current_value current.now) }
{
    are_none(&current.given, place) && current.writes.is_empty()
}

/// The entry that an entry which goes on is in the end.
fn finished(current: Current) -> Entry
    ensures { entry_value result ≡ current_value current }
{
    let given = current.given;
    let mut regs = [None; 16];
    regs.copy_from_slice(&given[..16]);
    Entry {
        question: current.question,
        answer: Answer {
            regs,
            flags: given[16],
            fs: given[17],
            gs: given[18],
            writes: MemWrites::from_vec(current.writes),
        },
    }
}

fn take_first(alloc: Global, line: Line) -> Option<Draft>
    ensures { option_map draft_value result ≡ taken_first line }
{
    match line {
        Line::Version => Some(Draft::Heads(Vec::new(alloc))),
        _ => None,
    }
}

fn take_value(alloc: Global, mut values: Vec<u64>, line: Line) -> Result<Option<Draft>, AllocError>
    ensures { IfOk result (λ next. option_map draft_value next ≡ taken_value values.items line) }
{
    let Line::Value { name, value } = line else {
        return Ok(None);
    };
    if name != values.len() {
        return Ok(None);
    }
    values.push(value)?;
    if values.len() == NAMES {
        Ok(Some(Draft::Body(values, Vec::new(alloc))))
    } else {
        Ok(Some(Draft::Heads(values)))
    }
}

fn take_region(
    alloc: Global,
    values: Vec<u64>,
    mut regions: Vec<Region>,
    line: Line,
) -> Result<Option<Draft>, AllocError>
    ensures { IfOk result (λ next. option_map draft_value next
        ≡ taken_region values.items regions.items line) }
{
    match line {
        Line::Region(region) => {
            regions.push(region)?;
            if are_regions(&regions) {
                Ok(Some(Draft::Body(values, regions)))
            } else {
                Ok(None)
            }
        }
        Line::Ask(question) => {
            let current = fresh(alloc, question);
            Ok(Some(Draft::Asked(values, regions, Vec::new(alloc), current)))
        }
        Line::End => Ok(Some(Draft::Done(values, regions, Vec::new(alloc)))),
        _ => Ok(None),
    }
}

fn take_entry(
    alloc: Global,
    values: Vec<u64>,
    regions: Vec<Region>,
    mut entries: Vec<Entry>,
    mut current: Current,
    line: Line,
) -> Result<Option<Draft>, AllocError>
    requires { line_fits line ≡ true }
    ensures { IfOk result (λ next. option_map draft_value next
        ≡ taken_entry values.items regions.items (map entry_value entries.items)
        (current_value current) line) }
{
    match line {
        Line::Ask(question) => {
            entries.push(finished(current))?;
            let next = fresh(alloc, question);
            Ok(Some(Draft::Asked(values, regions, entries, next)))
        }
        Line::Set { name, value } => {
            if !may_set(&current, name) {
                return Ok(None);
            }
            current.given[name] = Some(value);
            Ok(Some(Draft::Asked(values, regions, entries, current)))
        }
        Line::Mem(write) => {
            current.writes.push(write)?;
            Ok(Some(Draft::Asked(values, regions, entries, current)))
        }
        Line::End => {
            entries.push(finished(current))?;
            Ok(Some(Draft::Done(values, regions, entries)))
        }
        _ => Ok(None),
    }
}

/// A draft with one more line, where that goes on with it.
pub(crate) fn take(alloc: Global, draft: Draft, line: Line) -> Result<Option<Draft>, AllocError>
    requires { line_fits line ≡ true }
    ensures { IfOk result (λ next. option_map draft_value next ≡ taken (draft_value draft) line) }
{
    match draft {
        Draft::Blank => Ok(take_first(alloc, line)),
        Draft::Heads(values) => take_value(alloc, values, line),
        Draft::Body(values, regions) => take_region(alloc, values, regions, line),
        Draft::Asked(values, regions, entries, current) => {
            take_entry(alloc, values, regions, entries, current, line)
        }
        Draft::Done(..) => Ok(None),
    }
}
