//! What `check` prints of a verdict.
ghost use Rattle.std.specs.Prelude.{◌≡◌, ◌++◌, OnOk, IfOk};
ghost use Rattle.inspect_commands.specs.CheckAnswers.{address_text, verdict_text, verdict_status};

use command_io::status;
use image_check::verdict::Verdict;
use std::alloc::{AllocError, Global};

/// Appends an address of eight hexadecimal digits, or of sixteen where eight are too few.
#[tactic(auto, unfolding(patch_report::specs::Spelling::hex8, image_step::specs::Spelling::hex16))]
fn push_address(alloc: Global, out: &mut Vec<u8>, addr: u64) -> Result<(), AllocError>
    ensures { OnOk result (out.new.items ≡ out.old.items ++ address_text addr) }
{
    if addr < 1 << 32 {
        let digits = hex::encode(alloc, (addr as u32).to_be_bytes())?;
        out.extend_from_slice(digits.as_bytes())
    } else {
        let digits = hex::encode(alloc, addr.to_be_bytes())?;
        out.extend_from_slice(digits.as_bytes())
    }
}

/// The line of a verdict.
pub fn verdict_text(alloc: Global, verdict: Verdict) -> Result<Vec<u8>, AllocError>
    ensures { IfOk result (λ text. text.items ≡ verdict_text verdict) }
{
    let mut out = Vec::new(alloc);
    match verdict {
        Verdict::Yes => out.extend_from_slice(b"check yes\n")?,
        Verdict::No { addr, rule } => {
            let rule = format!(in alloc; "{rule}")?;
            out.extend_from_slice(b"check no ")?;
            push_address(alloc, &mut out, addr)?;
            out.extend_from_slice(b" ")?;
            out.extend_from_slice(rule.as_bytes())?;
            out.extend_from_slice(b"\n")?;
        }
    }
    Ok(out)
}

/// The status of a verdict.
pub fn verdict_status(verdict: Verdict) -> u8
    ensures { result ≡ verdict_status verdict }
{
    match verdict {
        Verdict::Yes => status::DONE,
        Verdict::No { .. } => status::UNSOUND,
    }
}
