//! The work of an instruction elsewhere.
ghost use Rattle.std.specs.Prelude.{◌≡◌, ◌≤◌, IfSome, Some};
ghost use Rattle.insn_form.specs.declared.form.Insn.{Insn};
ghost use Rattle.insn_form.specs.Displacing.{IsSpelledBy};
ghost use Rattle.start_list.specs.Forms.{work_length};

use insn_form::{displaced_len, falls};
use pun_base::limits::JUMP_LEN;
use start_entries::entry::StartEntry;

/// How many bytes the code has that does an instruction's work elsewhere.
pub fn work_size(entry: &StartEntry) -> Option<u32>
    requires spelled { (i : Insn) → entry.now.form ≡ Some i → IsSpelledBy i entry.now.len }
    requires some { 1 ≤ entry.now.len }
    ensures value { result ≡ work_length entry.now }
    ensures some { IfSome result (λ n. (1 ≤ n) × (n ≤ 51)) }
{
    match &entry.form {
        None => None,
        Some(insn) => match displaced_len(insn, entry.len, entry.addr) {
            None => None,
            Some(work) => {
                let back = if falls(insn) { JUMP_LEN } else { 0 };
                Some(u32::from(work) + u32::from(back))
            }
        },
    }
}
