//! The runs of written bytes that a report tells.
ghost use Rattle.std.specs.Prelude.{◌≡◌, ◌++◌, map, IfOk, OnOk};
ghost use Rattle.patch_report.specs.Runs.{runs, runs_of};
ghost use Rattle.patch_report.specs.Values.{row_value, write_value};

use crate::report::Report;
use crate::row::ReportRow;
use pun_base::plan::Write;
use std::alloc::{AllocError, Global};

/// Appends the runs of a row.
#[tactic(auto, using(crate::proofs::OutcomeRuns::runs_written))]
fn push_runs(runs: &mut Vec<Write>, row: &ReportRow) -> Result<(), AllocError>
    ensures { OnOk result (map write_value runs.new.items
        ≡ map write_value runs.old.items ++ runs_of (row_value row.now).outcome) }
{
    for run in row.outcome.writes() {
        runs.push(run.clone().unwrap())?;
    }
    Ok(())
}

impl Report {
    /// All runs of written bytes, in turn order.
    pub fn runs(&self, alloc: Global) -> Result<Vec<Write>, AllocError>
        ensures { IfOk result (λ v. map write_value v.items ≡ runs self.now.body) }
    {
        let mut runs = Vec::new(alloc);
        for row in self.rows() {
            push_runs(&mut runs, row)?;
        }
        Ok(runs)
    }
}
