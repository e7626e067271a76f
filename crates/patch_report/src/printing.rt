//! The text of a report.
ghost use Rattle.std.specs.Prelude.{◌≡◌, [], ◌∷◌, ◌++◌, map, OnOk};
ghost use Rattle.std.specs.List.{flat_map};
ghost use Rattle.patch_report.specs.Spelling.{lines_text, mark_of, outcome_lines, page_line, plan_lines, row_lines, version_lines, write_line};
ghost use Rattle.patch_report.specs.Values.{outcome_value, plan_value, row_value, write_value};
ghost use Rattle.patch_report.specs.declared.line.Line.TheVariants as line;

use crate::line::Mark;
use crate::line_writing::{
    push_action, push_origin, push_page, push_private, push_pun, push_site, push_sites, push_tramp,
    push_write,
};
use crate::origin::Origin;
use crate::row::ReportRow;
use pun_base::action::Action;
use pun_base::outcome::{Outcome, Plan};
use pun_base::plan::Write;
use pun_base::pun::Pun;
use pun_base::tramp::Tramp;
use std::alloc::AllocError;

/// The word of an outcome.
fn mark_of(outcome: &Outcome) -> Mark
    ensures { result ≡ mark_of (outcome_value outcome.now) }
{
    match outcome {
        Outcome::Patched(plan) => Mark::Patched(plan.scheme),
        Outcome::NotRelocatable => Mark::NotRelocatable,
        Outcome::NoPlan => Mark::NoPlan,
        Outcome::Shared => Mark::Shared,
    }
}

/// Appends the lines of trampolines.
fn push_tramps(out: &mut Vec<u8>, tramps: &[Tramp]) -> Result<(), AllocError>
    ensures { OnOk result (out.new.items ≡ out.old.items
        ++ lines_text (map line.Tramp tramps.now)) }
{
    for tramp in tramps {
        push_tramp(out, *tramp)?;
        out.push(b'\n')?;
    }
    Ok(())
}

/// Appends the lines of writes.
fn push_writes(out: &mut Vec<u8>, writes: &[Write]) -> Result<(), AllocError>
    ensures { OnOk result (out.new.items ≡ out.old.items
        ++ lines_text (map write_line (map write_value writes.now))) }
{
    for write in writes {
        let was = write.was.as_slice();
        push_write(out, write.addr, was, write.now.as_slice())?;
        out.push(b'\n')?;
    }
    Ok(())
}

/// Appends the lines of punned bytes.
fn push_puns(out: &mut Vec<u8>, puns: &[Pun]) -> Result<(), AllocError>
    ensures { OnOk result (out.new.items ≡ out.old.items ++ lines_text (map line.Pun puns.now)) }
{
    for pun in puns {
        push_pun(out, pun)?;
        out.push(b'\n')?;
    }
    Ok(())
}

/// Appends the lines of a plan.
fn push_plan(out: &mut Vec<u8>, plan: &Plan) -> Result<(), AllocError>
    ensures { OnOk result (out.new.items ≡ out.old.items
        ++ lines_text (plan_lines (plan_value plan.now))) }
{
    push_tramps(out, plan.tramps.as_slice())?;
    push_writes(out, plan.writes.as_slice())?;
    push_puns(out, plan.puns.as_slice())?;
    Ok(())
}

/// Appends the lines of an outcome.
fn push_outcome(out: &mut Vec<u8>, outcome: &Outcome) -> Result<(), AllocError>
    ensures { OnOk result (out.new.items ≡ out.old.items
        ++ lines_text (outcome_lines (outcome_value outcome.now))) }
{
    match outcome {
        Outcome::Patched(plan) => push_plan(out, plan),
        Outcome::NotRelocatable | Outcome::NoPlan | Outcome::Shared => Ok(()),
    }
}

/// Appends the lines of a row.
fn push_row(out: &mut Vec<u8>, row: &ReportRow) -> Result<(), AllocError>
    ensures { OnOk result (out.new.items ≡ out.old.items
        ++ lines_text (row_lines (row_value row.now))) }
{
    push_site(out, row.site, row.number, mark_of(&row.outcome))?;
    out.push(b'\n')?;
    push_outcome(out, &row.outcome)
}

/// Appends the lines of rows.
pub(crate) fn push_rows(out: &mut Vec<u8>, rows: &[ReportRow]) -> Result<(), AllocError>
    ensures { OnOk result (out.new.items ≡ out.old.items
        ++ lines_text (flat_map row_lines (map row_value rows.now))) }
{
    for row in rows {
        push_row(out, row)?;
    }
    Ok(())
}

/// Appends the lines of pages.
pub(crate) fn push_pages(out: &mut Vec<u8>, pages: &[(u32, u32)]) -> Result<(), AllocError>
    ensures { OnOk result (out.new.items ≡ out.old.items ++ lines_text (map page_line pages.now)) }
{
    for page in pages {
        push_page(out, page.0, page.1)?;
        out.push(b'\n')?;
    }
    Ok(())
}

/// Appends the lines that tell the version, and what it tells of the original.
pub(crate) fn push_version(out: &mut Vec<u8>, origin: Option<Origin>) -> Result<(), AllocError>
    ensures { OnOk result (out.new.items ≡ out.old.items ++ lines_text (version_lines origin)) }
{
    match origin {
        None => out.extend_from_slice(b"e9report 1\n"),
        Some(origin) => {
            out.extend_from_slice(b"e9report 2\n")?;
            push_origin(out, origin)?;
            out.extend_from_slice(b"\n")
        }
    }
}

/// Appends the other lines before the rows.
pub(crate) fn push_head(
    out: &mut Vec<u8>,
    action: Action,
    lo: u32,
    hi: u32,
    count: usize,
) -> Result<(), AllocError>
    ensures { OnOk result (out.new.items ≡ out.old.items
        ++ lines_text (line.Action action ∷ line.Private lo hi ∷ line.Sites count ∷ [])) }
{
    push_action(out, action)?;
    out.push(b'\n')?;
    push_private(out, lo, hi)?;
    out.push(b'\n')?;
    push_sites(out, count)?;
    out.push(b'\n')?;
    Ok(())
}
