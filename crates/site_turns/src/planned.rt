//! What was planned.
ghost use Rattle.std.specs.Prelude.{◌≡◌, map, IfOk};
ghost use Rattle.std.specs.List.{AllByRecursion};
ghost use Rattle.page_group.specs.Pages.{ends_of};
ghost use Rattle.elf_emit.specs.Emits.{range_of};
ghost use Rattle.site_turns.specs.PlannedState.{EndsLow};

use elf_emit::built::Built;
use patch_report::row::ReportRow;
use pun_base::range::Range;
use std::alloc::{AllocError, Global};
use std::marker::Model;

/// The private range, a row for each site in turn order, and the code of each trampoline in the
/// order of the rows.
#[derive(Drop)]
pub struct Planned {
    private: Range,
    rows: Vec<ReportRow>,
    built: Vec<Built>,
}

impl Model for Planned {
    ghost use Rattle.site_turns.specs.PlannedState.{PlannedState};

    ghost Value = { PlannedState };

    ghost view = { λ p. record { private = p.private; rows = p.rows.items; built = p.built.items } };
}

impl Planned {
    /// What was planned, of these parts.
    pub fn new(private: Range, rows: Vec<ReportRow>, built: Vec<Built>) -> Planned
        ensures { result ≡ record { private = private; rows = rows.items; built = built.items } }
    {
        Planned {
            private,
            rows,
            built,
        }
    }

    /// The addresses that new code alone reads and writes.
    pub fn private(&self) -> Range
        ensures { result ≡ self.now.private }
    {
        self.private
    }

    /// What became of each site, in turn order: the highest site first.
    pub fn rows(&self) -> &[ReportRow]
        ensures { result.now ≡ self.now.rows }
    {
        &self.rows
    }

    /// The code of each trampoline, in the order of the rows.
    pub fn built(&self) -> &[Built]
        ensures { result.now ≡ self.now.built }
    {
        &self.built
    }

    /// The private range, the rows and the code, none of which is copied.
    pub fn into_parts(self) -> (Range, Vec<ReportRow>, Vec<Built>)
        ensures private { result.0 ≡ self.private }
        ensures rows { result.1.items ≡ self.rows }
        ensures built { result.2.items ≡ self.built }
    {
        let Planned {
            private,
            rows,
            built,
        } = self;
        (private, rows, built)
    }
}

/// The addresses of each piece of code.
pub fn code_ranges(alloc: Global, built: &[Built]) -> Result<Vec<Range>, AllocError>
    requires { AllByRecursion EndsLow built.now }
    ensures { IfOk result (λ ranges. ends_of ranges.items ≡ map range_of built.now) }
{
    let mut ranges = Vec::with_capacity(alloc, built.len())?;
    for piece in built {
        ranges.push(piece.range())?;
    }
    Ok(ranges)
}
