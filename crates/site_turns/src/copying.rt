//! Copies of what is written at the sites.
ghost use Rattle.std.specs.Prelude.{◌≡◌, ◌++◌, IfOk, OnOk};
ghost use Rattle.site_turns.specs.PlanLaws.{writes_of};

use patch_report::row::ReportRow;
use pun_base::plan::Write;
use std::alloc::{AllocError, Global};

/// Appends a copy of each write.
fn push_writes(writes: &mut Vec<Write>, more: &[Write]) -> Result<(), AllocError>
    ensures { OnOk result (writes.new.items ≡ writes.old.items ++ more.now) }
{
    for write in more {
        writes.push(write.clone()?)?;
    }
    Ok(())
}

/// A copy of each write of the rows, in their order.
pub fn copied_writes(alloc: Global, rows: &[ReportRow]) -> Result<Vec<Write>, AllocError>
    ensures { IfOk result (λ v. v.items ≡ writes_of rows.now) }
{
    let mut writes = Vec::with_capacity(alloc, rows.len())?;
    for row in rows {
        push_writes(&mut writes, row.outcome.writes())?;
    }
    Ok(writes)
}
