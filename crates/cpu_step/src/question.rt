//! What an instruction asks of the world.
ghost use Rattle.std.specs.Prelude.{◌≡◌, ◌+◌, ◌≤◌, ◌++◌, [], ◌∷◌, length, take, drop};
ghost use Rattle.length_decode.specs.Spelling.{Fields, IsInstruction, IsSpelling, spelling};
ghost use Rattle.cpu_state.specs.Bytes.{advanced};
ghost use Rattle.insn_form.specs.Operands.{word_of};
ghost use Rattle.insn_form.specs.Filling.{integer_of};
ghost use Rattle.insn_form.specs.Step.{question_of};

use crate::operands::word;
use arrayvec::ArrayVec;
use cpu_state::world::Question;
use insn_form::{has_rip, integer};
use length_decode::Parts;
use pun_base::byte_list::ByteList;

/// The address that the four bytes from `at` on name, counted from `next`.
fn named(bytes: &[u8], at: usize, next: u64) -> u64
    requires { at + 4 ≤ length bytes.now }
    ensures { result ≡ advanced next (word_of (integer_of (take 4 (drop at bytes.now)))) }
{
    let (_, rest) = bytes.split_at(at);
    next.wrapping_add(word(integer(&rest[..4])))
}

/// The bytes with zeros in place of the four from `at` on.
fn with_zeros(bytes: &[u8], at: usize) -> ByteList
    requires within { at + 4 ≤ length bytes.now }
    requires fits { length bytes.now ≤ 15 }
    ensures { result ≡ take at bytes.now ++ ((0 ∷ 0 ∷ 0 ∷ 0 ∷ []) ++ drop (at + 4) bytes.now) }
{
    let mut list = ArrayVec::<u8, 16>::new();
    list.try_extend_from_slice(&bytes[..at]).unwrap();
    list.try_extend_from_slice(&[0; 4]).unwrap();
    list.try_extend_from_slice(&bytes[at + 4..]).unwrap();
    ByteList::from_slice(list.as_slice())
}

/// What the instruction of these bytes asks, in front of the one at `next`.
pub(crate) fn question(parts: &Parts, bytes: &[u8], next: u64) -> Question
    requires { IsSpelling bytes.now parts.now }
    ensures { (f : Fields) → IsInstruction f → bytes.now ≡ spelling f
        → result ≡ question_of f next }
{
    if has_rip(parts) {
        let at = usize::from(parts.disp_at);
        Question {
            bytes: with_zeros(bytes, at),
            addr: Some(named(bytes, at, next)),
        }
    } else {
        Question {
            bytes: ByteList::from_slice(bytes),
            addr: None,
        }
    }
}
