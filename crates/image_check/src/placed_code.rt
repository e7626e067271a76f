//! A trampoline with its code.
ghost use Rattle.std.specs.Prelude.{◌≤◌, length};

use crate::flat::ReportLine;
use code_bytes::code::CodeBytes;

/// A trampoline of a report with its code; no byte where the instruction at its start isn't listed or
/// can't be displaced.
#[derive(Debug, PartialEq, Eq, Drop)]
pub struct PlacedCode {
    pub line: ReportLine,
    pub bytes: CodeBytes,
    ghost fits: { length bytes ≤ 128 },
}
