//! Trampolines of single instructions, by their bytes.
ghost use Rattle.std.specs.Prelude.{◌≡◌, true};
ghost use Rattle.pun_base.specs.Actions.{IsAction};

use code_bytes::code::Code;
use insn_form::whole_form;
use pun_base::action::{Action, Comparisons};
use relocate_insn::NotRelocatable;
use trampoline::{Event, build};

/// Whether an action can be asked for, and has no more than one comparison.
fn is_asked_for(action: Action) -> bool
    ensures { result ≡ true → IsAction action }
{
    match action {
        Action::Cover | Action::Count => true,
        Action::Ring { len } => 1 <= len && len <= 65536,
        Action::When { list, .. } => match list {
            Comparisons::One(a) => a.reg < 16 && a.value < 0x8000_0000,
            Comparisons::Two(..) | Comparisons::Three(..) => false,
        },
    }
}

/// The trampoline at `place` of the one instruction that the bytes spell at `from`, for the site with a number and a private range
/// at 0x20000.
pub fn trampoline_of(
    bytes: &[u8],
    from: u32,
    place: u32,
    number: u32,
    action: Option<Action>,
) -> Option<Result<Code, NotRelocatable>> {
    if 0x7000_0000 < from || 0x7000_0000 < place || 65_536 <= number {
        return None;
    }
    let event = match action {
        None => None,
        Some(action) if is_asked_for(action) => Some(Event { action, number }),
        Some(_) => return None,
    };
    let insn = whole_form(bytes)?;
    Some(build(&insn, bytes, from, place, event, 0x20000))
}

/// Whether the code has these bytes, and falls through or not.
pub fn is_code(code: Option<Result<Code, NotRelocatable>>, bytes: &[u8], falls: bool) -> bool {
    match code {
        Some(Ok(code)) => code.bytes.as_slice() == bytes && code.falls == falls,
        Some(Err(_)) | None => false,
    }
}
