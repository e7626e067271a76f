//! Parts of a report, read line by line.
ghost use Rattle.std.specs.Prelude.{◌≡◌, ◌+◌, ◌<◌, ◌≤◌, length, option_map, map};
ghost use Rattle.pun_base.specs.Ranges.{ends};
ghost use Rattle.patch_report.specs.Grammar.{tramp_count};
ghost use Rattle.patch_report.specs.Reading.{action_of, count_of, end_at, end_of, found, next_at, one_more, origin_at, origin_of, outcome_at, plan_at, private_of, pun_of, tramp_of, tramps_at, up_to_three, version_of, wanted, write_of, writes_at};
ghost use Rattle.patch_report.specs.Values.{outcome_value, plan_value, write_value};
ghost use Rattle.patch_report.specs.Views.{at_value, next_value};
ghost use Rattle.patch_report.specs.Answers.{Gives};

use crate::error::ReportError;
use crate::line::{Line, Mark};
use crate::line_reading::{Cursor, begins_with, next_line};
use crate::origin::{Origin, Version};
use pun_base::action::Action;
use pun_base::outcome::{Outcome, Plan};
use pun_base::plan::Write;
use pun_base::plan_lists::{PunList, TrampList, WriteList};
use pun_base::pun::Pun;
use pun_base::range::Range;
use pun_base::scheme::Scheme;
use pun_base::tramp::Tramp;

/// The next line and where reading goes on, or the line's refusal where there is none.
#[tactic(auto, unfolding(crate::specs::Reading::next_at))]
pub(crate) fn some_line(at: Cursor) -> Result<(Line, Cursor), ReportError>
    ensures { Gives next_value result (next_at (at_value at.entry)) }
{
    let line = at.place;
    match next_line(at) {
        Some(next) => Ok(next),
        None => Err(ReportError::BadReport { line }),
    }
}

/// The first line, which tells the version.
#[tactic(auto, unfolding(crate::specs::Reading::wanted))]
pub(crate) fn read_version(at: Cursor) -> Result<(Version, Cursor), ReportError>
    ensures { Gives (λ x. (x.0, at_value x.1)) result (wanted version_of (at_value at.entry)) }
{
    let place = at.place;
    let (line, later) = some_line(at)?;
    match line {
        Line::Version(version) => Ok((version, later)),
        _ => Err(ReportError::BadReport { line: place }),
    }
}

/// The line that tells an origin.
#[tactic(auto, unfolding(crate::specs::Reading::wanted))]
fn read_origin_line(at: Cursor) -> Result<(Origin, Cursor), ReportError>
    ensures { Gives (λ x. (x.0, at_value x.1)) result (wanted origin_of (at_value at.entry)) }
{
    let place = at.place;
    let (line, later) = some_line(at)?;
    match line {
        Line::Origin(origin) => Ok((origin, later)),
        _ => Err(ReportError::BadReport { line: place }),
    }
}

/// What a version tells of the original.
#[tactic(auto, unfolding(crate::specs::Reading::origin_at))]
pub(crate) fn read_origin(
    version: Version,
    at: Cursor,
) -> Result<(Option<Origin>, Cursor), ReportError>
    ensures { Gives (λ x. (x.0, at_value x.1)) result (origin_at version (at_value at.entry)) }
{
    match version {
        Version::One => Ok((None, at)),
        Version::Two => {
            let (origin, later) = read_origin_line(at)?;
            Ok((Some(origin), later))
        }
    }
}

/// The line that tells the action.
#[tactic(auto, unfolding(crate::specs::Reading::wanted))]
pub(crate) fn read_action(at: Cursor) -> Result<(Action, Cursor), ReportError>
    ensures { Gives (λ x. (x.0, at_value x.1)) result (wanted action_of (at_value at.entry)) }
{
    let place = at.place;
    let (line, later) = some_line(at)?;
    match line {
        Line::Action(action) => Ok((action, later)),
        _ => Err(ReportError::BadReport { line: place }),
    }
}

/// The line that tells the private range.
#[tactic(auto, unfolding(crate::specs::Reading::wanted))]
pub(crate) fn read_private(at: Cursor) -> Result<(Range, Cursor), ReportError>
    ensures { Gives (λ x. (ends x.0, at_value x.1)) result (wanted private_of (at_value at.entry)) }
{
    let place = at.place;
    let (line, later) = some_line(at)?;
    match line {
        Line::Private { lo, hi } if lo < hi => Ok((Range { lo, hi }, later)),
        _ => Err(ReportError::BadReport { line: place }),
    }
}

/// The line that tells the number of sites.
#[tactic(auto, unfolding(crate::specs::Reading::wanted))]
pub(crate) fn read_count(at: Cursor) -> Result<(u32, Cursor), ReportError>
    ensures { Gives (λ x. (x.0, at_value x.1)) result (wanted count_of (at_value at.entry)) }
{
    let place = at.place;
    let (line, later) = some_line(at)?;
    match line {
        Line::Sites(count) => Ok((count, later)),
        _ => Err(ReportError::BadReport { line: place }),
    }
}

/// A trampoline's line.
#[tactic(auto, unfolding(crate::specs::Reading::wanted))]
fn read_tramp(at: Cursor) -> Result<(Tramp, Cursor), ReportError>
    ensures { Gives (λ x. (x.0, at_value x.1)) result (wanted tramp_of (at_value at.entry)) }
{
    let place = at.place;
    let (line, later) = some_line(at)?;
    match line {
        Line::Tramp(tramp) => Ok((tramp, later)),
        _ => Err(ReportError::BadReport { line: place }),
    }
}

/// The last line.
#[tactic(auto, unfolding(crate::specs::Reading::wanted))]
fn read_last(at: Cursor) -> Result<Cursor, ReportError>
    ensures { Gives (λ later. (tt, at_value later)) result (wanted end_of (at_value at.entry)) }
{
    let place = at.place;
    let (line, later) = some_line(at)?;
    match line {
        Line::End => Ok(later),
        _ => Err(ReportError::BadReport { line: place }),
    }
}

/// The last line, with nothing behind it.
#[tactic(auto, unfolding(crate::specs::Reading::end_at))]
pub(crate) fn read_end(at: Cursor) -> Result<(), ReportError>
    ensures { Gives (λ x. x) result (end_at (at_value at.entry)) }
{
    let later = read_last(at)?;
    if later.text.is_empty() {
        Ok(())
    } else {
        Err(ReportError::BadReport { line: later.place })
    }
}

/// How many trampolines a scheme has: T2 and T3 have one for the victim too.
fn tramps_of(scheme: Scheme) -> u32
    ensures { result ≡ tramp_count scheme }
{
    match scheme {
        Scheme::B1 | Scheme::B2 | Scheme::T1 => 1,
        Scheme::T2 | Scheme::T3 => 2,
    }
}

/// The lines of a scheme's trampolines.
#[tactic(auto, unfolding(crate::specs::Reading::tramps_at))]
fn read_tramps(scheme: Scheme, at: Cursor) -> Result<(TrampList, Cursor), ReportError>
    ensures { Gives (λ x. (x.0, at_value x.1)) result (tramps_at scheme (at_value at.entry)) }
{
    let (first, later) = read_tramp(at)?;
    let mut tramps = TrampList::new();
    tramps.push(first);
    if tramps_of(scheme) == 1 {
        return Ok((tramps, later));
    }
    let (second, last) = read_tramp(later)?;
    tramps.push(second);
    Ok((tramps, last))
}

/// The next line, where it is that of a write.
#[tactic(auto, unfolding(crate::specs::Reading::found))]
fn find_write(at: Cursor) -> Option<(Write, Cursor)>
    ensures { option_map (λ x. (write_value x.0, at_value x.1)) result
        ≡ found write_of (at_value at.entry) }
{
    if !begins_with(at.text, b'w') {
        return None;
    }
    let (line, later) = next_line(at)?;
    match line {
        Line::Write { addr, was, now } => Some((Write { addr, was, now }, later)),
        _ => None,
    }
}

/// Adds the next line's write, where it is that of a write, and goes on behind it.
#[tactic(auto, unfolding(crate::specs::Reading::one_more))]
fn add_write<'a>(writes: &mut WriteList, at: Cursor<'a>) -> Cursor<'a>
    requires { length writes.old < 3 }
    ensures value { (map write_value writes.new, at_value result)
        ≡ one_more write_of (map write_value writes.old, at_value at.entry) }
    ensures room { length writes.new ≤ length writes.old + 1 }
{
    match find_write(at) {
        Some((write, later)) => {
            writes.push(write);
            later
        }
        None => at,
    }
}

/// The next lines of writes, one to three.
#[tactic(auto, unfolding(crate::specs::Reading::writes_at))]
fn read_writes(at: Cursor) -> Result<(WriteList, Cursor), ReportError>
    ensures { Gives (λ x. (map write_value x.0, at_value x.1)) result
        (writes_at (at_value at.entry)) }
{
    let mut writes = WriteList::new();
    let later = add_write(&mut writes, at);
    let later = add_write(&mut writes, later);
    let later = add_write(&mut writes, later);
    if writes.as_slice().is_empty() {
        return Err(ReportError::BadReport { line: at.place });
    }
    Ok((writes, later))
}

/// The next line, where it is that of punned bytes.
#[tactic(auto, unfolding(crate::specs::Reading::found))]
fn find_pun(at: Cursor) -> Option<(Pun, Cursor)>
    ensures { option_map (λ x. (x.0, at_value x.1)) result ≡ found pun_of (at_value at.entry) }
{
    if !begins_with(at.text, b'p') {
        return None;
    }
    let (line, later) = next_line(at)?;
    match line {
        Line::Pun(pun) => Some((pun, later)),
        _ => None,
    }
}

/// Adds the next line's punned bytes, where it is that of punned bytes, and goes on behind it.
#[tactic(auto, unfolding(crate::specs::Reading::one_more))]
fn add_pun<'a>(puns: &mut PunList, at: Cursor<'a>) -> Cursor<'a>
    requires { length puns.old < 3 }
    ensures value { (puns.new, at_value result) ≡ one_more pun_of (puns.old, at_value at.entry) }
    ensures room { length puns.new ≤ length puns.old + 1 }
{
    match find_pun(at) {
        Some((pun, later)) => {
            puns.push(pun);
            later
        }
        None => at,
    }
}

/// The next lines of punned bytes, at most three.
fn read_puns(at: Cursor) -> (PunList, Cursor)
    ensures { (result.0, at_value result.1) ≡ up_to_three pun_of (at_value at.entry) }
{
    let mut puns = PunList::new();
    let later = add_pun(&mut puns, at);
    let later = add_pun(&mut puns, later);
    let later = add_pun(&mut puns, later);
    (puns, later)
}

/// The lines of a plan.
#[tactic(auto, unfolding(crate::specs::Reading::plan_at))]
fn read_plan(scheme: Scheme, at: Cursor) -> Result<(Plan, Cursor), ReportError>
    ensures { Gives (λ x. (plan_value x.0, at_value x.1)) result
        (plan_at scheme (at_value at.entry)) }
{
    let (tramps, later) = read_tramps(scheme, at)?;
    let (writes, later) = read_writes(later)?;
    let (puns, later) = read_puns(later);
    let plan = Plan {
        scheme,
        tramps,
        writes,
        puns,
    };
    Ok((plan, later))
}

/// What became of a site, by the word in its line and the lines behind it.
#[tactic(auto, unfolding(crate::specs::Reading::outcome_at))]
pub(crate) fn read_outcome(mark: Mark, at: Cursor) -> Result<(Outcome, Cursor), ReportError>
    ensures { Gives (λ x. (outcome_value x.0, at_value x.1)) result
        (outcome_at mark (at_value at.entry)) }
{
    match mark {
        Mark::Patched(scheme) => {
            let (plan, later) = read_plan(scheme, at)?;
            Ok((Outcome::Patched(plan), later))
        }
        Mark::NotRelocatable => Ok((Outcome::NotRelocatable, at)),
        Mark::NoPlan => Ok((Outcome::NoPlan, at)),
        Mark::Shared => Ok((Outcome::Shared, at)),
    }
}
