//! Condition codes (Intel SDM, volume 1, appendix B, table B-1).
ghost use Rattle.std.specs.Prelude.{◌≡◌};
ghost use Rattle.insn_form.specs.Conditions.{is_met};

use cpu_alu::Flags;

/// Whether the condition of the code holds.
#[tactic(auto, unfolding(insn_form::specs::Conditions::is_met))]
pub(crate) fn is_met(code: u8, flags: &Flags) -> bool
    ensures { result ≡ is_met code flags.now }
{
    let less = flags.sf != flags.of;
    match code {
        0x0 => flags.of,
        0x1 => !flags.of,
        0x2 => flags.cf,
        0x3 => !flags.cf,
        0x4 => flags.zf,
        0x5 => !flags.zf,
        0x6 => flags.cf || flags.zf,
        0x7 => !flags.cf && !flags.zf,
        0x8 => flags.sf,
        0x9 => !flags.sf,
        0xa => flags.pf,
        0xb => !flags.pf,
        0xc => less,
        0xd => !less,
        0xe => flags.zf || less,
        _ => !flags.zf && !less,
    }
}
