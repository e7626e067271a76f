//! The summary of a patch.
ghost use Rattle.std.specs.Prelude.{◌≡◌, IfOk, map, string_bytes};
ghost use Rattle.patch_report.specs.Values.{outcome_value, row_value};
ghost use Rattle.command_io.specs.Summary.{is_scheme, is_counted, number, sites_line, schemes_line, left_line, summary_text, done_status};

use crate::status;
use patch_report::row::ReportRow;
use pun_base::outcome::Outcome;
use pun_base::scheme::Scheme;
use std::alloc::{AllocError, Global};

/// Which sites are counted.
#[derive(Clone, Copy)]
enum Counted {
    Patched,
    /// Those that are patched by a scheme.
    By(Scheme),
    Left,
    NotRelocatable,
    NoPlan,
    Shared,
}

fn is_scheme(one: Scheme, other: Scheme) -> bool
    ensures { result ≡ is_scheme one other }
{
    match one {
        Scheme::B1 => matches!(other, Scheme::B1),
        Scheme::B2 => matches!(other, Scheme::B2),
        Scheme::T1 => matches!(other, Scheme::T1),
        Scheme::T2 => matches!(other, Scheme::T2),
        Scheme::T3 => matches!(other, Scheme::T3),
    }
}

/// Whether an outcome is counted.
fn is_counted(which: Counted, outcome: &Outcome) -> bool
    ensures { result ≡ is_counted which (outcome_value outcome.now) }
{
    match outcome {
        Outcome::Patched(plan) => match which {
            Counted::Patched => true,
            Counted::By(scheme) => is_scheme(scheme, plan.scheme),
            Counted::Left | Counted::NotRelocatable | Counted::NoPlan | Counted::Shared => false,
        },
        Outcome::NotRelocatable => matches!(which, Counted::Left | Counted::NotRelocatable),
        Outcome::NoPlan => matches!(which, Counted::Left | Counted::NoPlan),
        Outcome::Shared => matches!(which, Counted::Left | Counted::Shared),
    }
}

/// How many sites are counted.
fn number(rows: &[ReportRow], which: Counted) -> usize
    ensures { result ≡ number which (map row_value rows.now) }
{
    rows.iter()
        .filter(|row| is_counted(which, &row.outcome))
        .count()
}

/// The status of a patch that did its work, by whether a site is left.
pub fn done_status(rows: &[ReportRow]) -> u8
    ensures { result ≡ done_status (map row_value rows.now) }
{
    if number(rows, Counted::Left) == 0 {
        status::DONE
    } else {
        status::LEFT
    }
}

/// How many sites there are, and how many of them are patched and left.
#[tactic(auto, unfolding(crate::specs::Summary::sites_line))]
fn sites_line(alloc: Global, rows: &[ReportRow]) -> Result<String, AllocError>
    ensures { IfOk result (λ line. string_bytes line ≡ sites_line (map row_value rows.now)) }
{
    let sites = rows.len();
    let patched = number(rows, Counted::Patched);
    let left = number(rows, Counted::Left);
    format!(in alloc; "sites {sites} patched {patched} left {left}\n")
}

/// How many sites each scheme patched.
#[tactic(auto, unfolding(crate::specs::Summary::schemes_line))]
fn schemes_line(alloc: Global, rows: &[ReportRow]) -> Result<String, AllocError>
    ensures { IfOk result (λ line. string_bytes line ≡ schemes_line (map row_value rows.now)) }
{
    let b1 = number(rows, Counted::By(Scheme::B1));
    let b2 = number(rows, Counted::By(Scheme::B2));
    let t1 = number(rows, Counted::By(Scheme::T1));
    let t2 = number(rows, Counted::By(Scheme::T2));
    let t3 = number(rows, Counted::By(Scheme::T3));
    format!(in alloc; "B1 {b1} B2 {b2} T1 {t1} T2 {t2} T3 {t3}\n")
}

/// Why sites are left, and how many.
#[tactic(auto, unfolding(crate::specs::Summary::left_line))]
fn left_line(alloc: Global, rows: &[ReportRow]) -> Result<String, AllocError>
    ensures { IfOk result (λ line. string_bytes line ≡ left_line (map row_value rows.now)) }
{
    let fixed = number(rows, Counted::NotRelocatable);
    let unplanned = number(rows, Counted::NoPlan);
    let shared = number(rows, Counted::Shared);
    format!(in alloc; "NotRelocatable {fixed} NoPlan {unplanned} Shared {shared}\n")
}

/// The summary of these rows, one for each site in turn order.
#[tactic(auto, unfolding(crate::specs::Summary::summary_text))]
pub fn summary(alloc: Global, rows: &[ReportRow]) -> Result<String, AllocError>
    ensures { IfOk result (λ text. string_bytes text ≡ summary_text (map row_value rows.now)) }
{
    let mut text = sites_line(alloc, rows)?;
    text.push_str(schemes_line(alloc, rows)?.as_str())?;
    text.push_str(left_line(alloc, rows)?.as_str())?;
    Ok(text)
}
