//! The verdict on a patched file.
ghost use Rattle.std.specs.Prelude.{◌≡◌, IfOk};
ghost use Rattle.start_entries.specs.Laws.{IsBuilt};
ghost use Rattle.image_check.specs.Parts.{earlier_of, rule_number};
ghost use Rattle.image_check.specs.declared.verdict.Verdict.TheVariants.{Yes};
ghost use Rattle.sound_images.specs.Soundness.{IsCaseFollowed};
ghost use Rattle.sound_images.specs.Cases.{case_of};
ghost use Rattle.image_check.specs.Verdict.{IsVerdict};

use crate::checked::Checked;
use crate::rule::Rule;
use elf_read::elf::Elf;
use patch_report::report::Report;
use start_entries::starts::Starts;
use std::alloc::{AllocError, Global};

/// Whether a patched file is sound.
#[derive(Clone, Copy, Debug, PartialEq, Eq)]
pub enum Verdict {
    /// No rule fails anywhere.
    Yes,
    /// This is the least address at which a rule fails, and there the least rule, 1 to 6.
    No { addr: u64, rule: u8 },
}

/// The number of a rule.
fn number_of(rule: Rule) -> u8
    ensures { result ≡ rule_number rule }
{
    match rule {
        Rule::Byte => 1,
        Rule::Write => 2,
        Rule::Entry => 3,
        Rule::Code => 4,
        Rule::Range => 5,
        Rule::Site => 6,
    }
}

/// The verdict after a further rule is judged, which fails first at the address found, if anywhere.
fn earlier(verdict: Verdict, found: Option<u64>, rule: Rule) -> Verdict
    ensures { result ≡ earlier_of verdict found (rule_number rule) }
{
    let Some(least) = found else {
        return verdict;
    };
    let other = Verdict::No {
        addr: least,
        rule: number_of(rule),
    };
    match verdict {
        Verdict::Yes => other,
        Verdict::No { addr, .. } => if least < addr { other } else { verdict },
    }
}

/// Judges a patched file by the six rules of a sound image. The starts are those of the original. Where
/// the verdict is Yes, the patched image follows the original.
pub fn check(
    alloc: Global,
    orig: &Elf<'_>,
    patched: &Elf<'_>,
    starts: &Starts,
    report: &Report,
) -> Result<Verdict, AllocError>
    requires built { IsBuilt orig.now.bytes starts.now }
    ensures verdict { IfOk result (λ verdict. IsVerdict
        (case_of orig.now.bytes patched.now.bytes starts.now report.now.body) verdict) }
    ensures followed { IfOk result (λ verdict. verdict ≡ Yes → IsCaseFollowed
        (case_of orig.now.bytes patched.now.bytes starts.now report.now.body)) }
{
    report.keeps();
    let _accepted = orig.file();
    let checked = Checked::new(alloc, orig, patched, starts, report)?;
    let byte = earlier(Verdict::Yes, checked.least(alloc, Rule::Byte)?, Rule::Byte);
    let write = earlier(byte, checked.least(alloc, Rule::Write)?, Rule::Write);
    let entry = earlier(write, checked.least(alloc, Rule::Entry)?, Rule::Entry);
    let code = earlier(entry, checked.least(alloc, Rule::Code)?, Rule::Code);
    let range = earlier(code, checked.least(alloc, Rule::Range)?, Rule::Range);
    Ok(earlier(range, checked.least(alloc, Rule::Site)?, Rule::Site))
}
