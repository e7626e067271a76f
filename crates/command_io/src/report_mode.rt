//! Reports with their modes: a line before a report's text may say that the file was patched for guests of several threads.
ghost use Rattle.std.specs.Prelude.{◌≡◌, ◌+◌, ◌^◌, ◌<◌, ◌++◌, option_map, IfOk};
ghost use Rattle.patch_report.specs.Spelling.{report_text};
ghost use Rattle.command_io.specs.ReportModes.{mode_text, IsAfterModeLine, HasMode, line_in, error_in, ReadsIn, HasNextLine, OneModedReading, PlainIsRead, ThreadedIsRead};

use patch_report::error::ReportError;
use patch_report::report::{Report, read};
use std::alloc::{AllocError, Global};

/// What a file was patched for.
#[derive(Clone, Copy, Debug, PartialEq, Eq)]
pub enum Mode {
    /// A guest of one thread. Nothing comes before the report's text.
    Plain,
    /// A guest of several threads. The line `mode threads` comes before the report's text.
    Threaded,
}

/// What stands after the mode's line, where a text begins with one.
fn after_mode_line(text: &[u8]) -> Option<&[u8]>
    ensures { IsAfterModeLine text.now (option_map (λ x. x.now) result) }
{
    text.strip_prefix(b"mode threads\n")
}

/// The line of a whole text that is this line of its report's text.
fn line_in_mode(mode: Mode, line: u32) -> u32
    requires { line + 1 < 2 ^ 32 }
    ensures { result ≡ line_in mode line }
{
    match mode {
        Mode::Plain => line,
        Mode::Threaded => line + 1,
    }
}

/// A refusal of a report's text as one of the whole text.
fn error_in_mode(mode: Mode, error: ReportError) -> ReportError
    requires { HasNextLine error }
    ensures { result ≡ error_in mode error }
{
    match error {
        ReportError::BadReport { line } => ReportError::BadReport {
            line: line_in_mode(mode, line),
        },
        ReportError::BadVersion { line } => ReportError::BadVersion {
            line: line_in_mode(mode, line),
        },
        ReportError::Memory => ReportError::Memory,
    }
}

/// Reads a text of this mode by its report's text.
fn read_in_mode(
    alloc: Global,
    text: &[u8],
    mode: Mode,
    rest: &[u8],
) -> Result<(Mode, Report), ReportError>
    requires { HasMode text.now mode rest.now }
    ensures { ReadsIn text.now result }
{
    match read(alloc, rest) {
        Ok(report) => Ok((mode, report)),
        Err(error) => Err(error_in_mode(mode, error)),
    }
}

/// The mode and the report of a text. A text that begins with the line `mode threads` is the report after that line; another text is a
/// report as a whole. A refused line is counted from the first line of the text. `Memory` may come in place of any answer.
pub fn read_report(alloc: Global, text: &[u8]) -> Result<(Mode, Report), ReportError>
    ensures { ReadsIn text.now result }
{
    match after_mode_line(text) {
        Some(rest) => read_in_mode(alloc, text, Mode::Threaded, rest),
        None => read_in_mode(alloc, text, Mode::Plain, text),
    }
}

/// The text of a report in a mode.
pub fn print_report(alloc: Global, mode: Mode, report: &Report) -> Result<Vec<u8>, AllocError>
    ensures { IfOk result (λ text. text.items ≡ mode_text mode ++ report_text report.now) }
{
    match mode {
        Mode::Plain => report.print(alloc),
        Mode::Threaded => {
            let mut text = Vec::from_slice(alloc, b"mode threads\n")?;
            text.extend_from_slice(&report.print(alloc)?)?;
            Ok(text)
        }
    }
}

/// A text is read as one thing.
#[tactic(auto, using(crate::proofs::ModedReadings::one_moded_reading))]
pub fn one_moded_reading()
    ensures { OneModedReading }
{}

/// A text that doesn't begin with the mode's line is read as a plain report's.
#[tactic(auto, using(crate::proofs::ModedReadings::plain_is_read))]
pub fn plain_is_read()
    ensures { PlainIsRead }
{}

/// A text that begins with the mode's line is read as the text after it.
#[tactic(auto, using(crate::proofs::ModedReadings::threaded_is_read))]
pub fn threaded_is_read()
    ensures { ThreadedIsRead }
{}
