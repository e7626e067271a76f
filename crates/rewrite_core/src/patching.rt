//! What is written of what was planned, and its report.
ghost use Rattle.std.specs.Prelude.{◌≡◌, map, IfOk};
ghost use Rattle.std.specs.List.{AllByRecursion};
ghost use Rattle.page_group.specs.Pages.{AreDisjoint};
ghost use Rattle.page_group.specs.Grouping.{IsGrouping};
ghost use Rattle.elf_emit.specs.Emits.{range_of};
ghost use Rattle.patch_report.specs.Grammar.{IsReport};
ghost use Rattle.patch_report.specs.Values.{body_of, written};
ghost use Rattle.site_turns.specs.PlannedState.{EndsLow};
ghost use Rattle.rewrite_core.specs.Patching.{IsPatchable, IsPatchFor};

use elf_emit::built::Built;
use page_group::groups::{Groups, group_owned};
use patch_report::origin::Origin;
use patch_report::report::Report;
use patch_report::row::ReportRow;
use pun_base::action::Action;
use pun_base::plan::Write;
use pun_base::range::Range;
use site_turns::copying::copied_writes;
use site_turns::planned::{Planned, code_ranges};
use std::alloc::{AllocError, Global};

/// What was planned, the writes of all rows, and the groups of the code.
#[derive(Drop)]
pub struct Patch {
    pub private: Range,
    pub rows: Vec<ReportRow>,
    pub built: Vec<Built>,
    pub writes: Vec<Write>,
    pub groups: Groups,
}

/// The groups of the code's pages.
pub fn code_groups(alloc: Global, built: &[Built]) -> Result<Groups, AllocError>
    requires placed { AllByRecursion EndsLow built.now }
    requires disjoint { AreDisjoint (map range_of built.now) }
    ensures pieces { IfOk result (λ groups. groups.pieces ≡ map range_of built.now) }
    ensures grouping { IfOk result (λ groups. IsGrouping groups.pieces groups.homes) }
{
    group_owned(alloc, code_ranges(alloc, built)?)
}

/// The report of these rows and groups, which are taken over. The groups' memory is freed before
/// the report is made.
pub fn report_of(
    alloc: Global,
    private: Range,
    rows: Vec<ReportRow>,
    groups: Groups,
    action: Action,
    origin: Origin,
) -> Result<Report, AllocError>
    requires { IsReport (written (body_of action private rows.items groups.homes) origin) }
    ensures { IfOk result (λ report.
        report ≡ written (body_of action private rows.items groups.homes) origin) }
{
    let pages = groups.homes(alloc)?;
    drop(groups);
    Report::of_rows(alloc, action, private, rows, pages, origin)
}

/// The patch of what was planned, which takes over the rows and the code.
pub fn patch_of(alloc: Global, planned: Planned) -> Result<Patch, AllocError>
    requires { IsPatchable planned }
    ensures { IfOk result (IsPatchFor planned) }
{
    let (private, rows, built) = planned.into_parts();
    let groups = code_groups(alloc, &built)?;
    let writes = copied_writes(alloc, &rows)?;
    Ok(Patch {
        private,
        rows,
        built,
        writes,
        groups,
    })
}

impl Patch {
    /// The report of what was written of such an original. What the report doesn't need is freed
    /// before it is made.
    pub fn into_report(
        self,
        alloc: Global,
        action: Action,
        origin: Origin,
    ) -> Result<Report, AllocError>
        requires { IsReport (written
            (body_of action self.private self.rows.items self.groups.homes) origin) }
        ensures { IfOk result (λ report. report
            ≡ written (body_of action self.private self.rows.items self.groups.homes) origin) }
    {
        let Patch {
            private,
            rows,
            built,
            writes,
            groups,
        } = self;
        drop(built);
        drop(writes);
        report_of(alloc, private, rows, groups, action, origin)
    }
}
