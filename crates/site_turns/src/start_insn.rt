//! The instruction at a listed start, with its bytes.
ghost use Rattle.std.specs.Prelude.{◌≡◌, ◌+◌, ◌≤◌, None, length, IfSome, MatchOption};
ghost use Rattle.elf_read.specs.Refusals.{refusal};
ghost use Rattle.relocate_insn.specs.Relocating.{Spells};
ghost use Rattle.start_entries.specs.Laws.{IsBuilt};
ghost use Rattle.site_turns.specs.StartInsns.{form_at, IsInsnAt};

use elf_read::elf::Elf;
use insn_form::Insn;
use start_entries::entry::StartEntry;
use start_entries::starts::Starts;

/// An instruction at a listed start: its entry, what it is, and its bytes.
#[derive(Clone, Copy)]
pub struct StartInsn<'a> {
    pub entry: &'a StartEntry,
    pub insn: &'a Insn,
    pub bytes: &'a [u8],
}

/// The instruction at a listed start: none where no start is listed there, or where the instruction
/// isn't known.
pub fn insn_at<'a>(elf: &'a Elf<'_>, starts: &'a Starts, start: u32) -> Option<StartInsn<'a>>
    requires accepted { refusal 0x10000 elf.now.bytes ≡ None }
    requires built { IsBuilt elf.now.bytes starts.now }
    ensures at { MatchOption result (form_at starts.now start ≡ None)
        (λ s. IsInsnAt elf.now.bytes starts.now start s.entry.now s.insn.now s.bytes.now) }
    ensures spelled { IfSome result (λ s. Spells s.bytes.now s.insn.now) }
    ensures low { IfSome result (λ s. s.entry.now.addr + length s.bytes.now ≤ 0x7FFF0000) }
{
    let Some(entry) = starts.at(start) else {
        return None;
    };
    let Some(insn) = entry.form.as_ref() else {
        return None;
    };
    let bytes = &elf.window(entry.addr)[..usize::from(entry.len)];
    Some(StartInsn { entry, insn, bytes })
}
