//! The code for one instruction.
ghost use Rattle.std.specs.Prelude.{◌≡◌, ℕ, ◌+◌, ◌≤◌, ◌<◌, ◌^◌, ◌∷◌, ◌++◌, true, length, IfOk, MatchResult, Some, None};
ghost use Rattle.length_decode.specs.Spelling.{Fields, IsInstruction, IsSpelling, spelling};
ghost use Rattle.insn_form.specs.declared.form.Insn.TheVariants.{Exact};
ghost use Rattle.insn_form.specs.declared.form.Op.TheVariants.{Call, Jmp};
ghost use Rattle.insn_form.specs.Displacing as displacing;
ghost use Rattle.insn_form.specs.Moved.{direct_target};
ghost use Rattle.insn_form.specs.Moved.{rel_bytes};
ghost use Rattle.relocate_insn.specs.Pieces.{push_code, jump_code};
ghost use Rattle.relocate_insn.specs.Relocating as relocating;
ghost use Rattle.relocate_insn.specs.Relocating.{Spells};
ghost use Rattle.relocate_insn.specs.Running.{DoesWork};

use crate::operand::Source;
use crate::writer::CodeWriter;
use code_bytes::code::Code;
use insn_form::{AskedForm, Insn, Op, Target, displaced_len, falls};
use length_decode::{Shape, decode};

/// No code does the work of the instruction somewhere else.
#[derive(Clone, Copy, Debug, PartialEq, Eq)]
pub struct NotRelocatable;

/// Writes `jcc rel32` (Intel SDM, volume 2, Jcc).
fn put_branch(code: &mut CodeWriter, condition: u8, place: u32, target: u32)
    requires condition { condition < 16 }
    requires room { length code.old ≤ 60 }
    requires place { place + 6 < 2 ^ 31 }
    ensures { code.new ≡ code.old ++ 0x0f ∷ (0x80 + condition) ∷ rel_bytes (place + 6) target }
{
    code.put(&[0x0F, 0x80 + condition]);
    code.put_relative(place + 6, target);
}

impl Source<'_> {
    /// The target of a direct branch.
    fn target(&self, rel: i32) -> u32
        requires { displacing.goes_to self.now.next rel < 2 ^ 31 }
        ensures { result ≡ displacing.goes_to self.now.next rel }
    {
        u64::from(self.next).wrapping_add(i64::from(rel).cast_unsigned()) as u32
    }

    /// Writes a direct call: the next address is pushed, and then a jump goes to the target.
    fn put_direct_call(&self, code: &mut CodeWriter, place: u32, target: u32)
        requires room { length code.old ≤ 60 }
        requires place { place + 10 < 2 ^ 31 }
        ensures { code.new ≡ code.old ++ (push_code self.now.next ++ jump_code (place + 5) target) }
    {
        code.put_push(self.next);
        code.put_jump(place + 5, target);
    }

    /// Writes a call through an operand: rax is saved, the target goes to `private` + 16, rax comes back, the next address is pushed, and a
    /// jump goes to the target.
    fn put_call_through(&self, code: &mut CodeWriter, place: u32, private: u32)
        requires spelled { IsSpelling self.now.bytes.now self.now.parts }
        requires room { length code.old ≤ 60 }
        requires place { place + 60 < 2 ^ 31 }
        requires private { private < 0x7FFF0000 }
        ensures { (f : Fields) → IsInstruction f → self.now.bytes.now ≡ spelling f
            → code.new ≡ code.old ++ relocating.through_code private
            (spelling (relocating.load_of f self.now.next
            (place + 8 + relocating.load_size f self.now.next))) self.now.next }
    {
        code.put_store(private);
        self.put_load(code, place + 8);
        code.put_store(private + 16);
        code.put_load(private);
        let return_address = self.next;
        code.put_push(return_address);
        code.put_jump_through(private + 16);
    }

    /// Writes the code for a jump: one through an operand is copied.
    fn put_jump(&self, code: &mut CodeWriter, target: &Target, place: u32)
        requires spelled { IsSpelling self.now.bytes.now self.now.parts }
        requires low { displacing.is_low self.now.next (direct_target (Exact (Jmp target.now)))
            ≡ true }
        requires room { length code.old ≤ 60 }
        requires place { place + 60 < 2 ^ 31 }
        ensures { (p : ℕ) (f : Fields) → IsInstruction f → self.now.bytes.now ≡ spelling f
            → code.new ≡ code.old ++ relocating.relocated_by
            (Exact (Jmp target.now)) p f self.now.next place }
    {
        match target {
            Target::Rel(rel) => code.put_jump(place, self.target(*rel)),
            Target::Through(_) => self.put_copy(code, place),
        }
    }

    /// Writes the code for a call.
    fn put_call(&self, code: &mut CodeWriter, target: &Target, place: u32, private: u32)
        requires spelled { IsSpelling self.now.bytes.now self.now.parts }
        requires low { displacing.is_low self.now.next (direct_target (Exact (Call target.now)))
            ≡ true }
        requires room { length code.old ≤ 60 }
        requires place { place + 60 < 2 ^ 31 }
        requires private { private < 0x7FFF0000 }
        ensures { (f : Fields) → IsInstruction f → self.now.bytes.now ≡ spelling f
            → code.new ≡ code.old ++ relocating.relocated_by
            (Exact (Call target.now)) private f self.now.next place }
    {
        match target {
            Target::Rel(rel) => self.put_direct_call(code, place, self.target(*rel)),
            Target::Through(_) => self.put_call_through(code, place, private),
        }
    }

    /// Writes the code for an operation of known meaning.
    fn put_op(&self, code: &mut CodeWriter, op: &Op, place: u32, private: u32)
        requires spelled { IsSpelling self.now.bytes.now self.now.parts }
        requires low { displacing.is_low self.now.next (direct_target (Exact op.now)) ≡ true }
        requires condition { displacing.has_condition (Exact op.now) ≡ true }
        requires room { length code.old ≤ 60 }
        requires place { place + 60 < 2 ^ 31 }
        requires private { private < 0x7FFF0000 }
        ensures { (f : Fields) → IsInstruction f → self.now.bytes.now ≡ spelling f
            → code.new ≡ code.old ++ relocating.relocated_by
            (Exact op.now) private f self.now.next place }
    {
        match op {
            Op::Jcc { cc, rel } => put_branch(code, *cc, place, self.target(*rel)),
            Op::Loop { .. } => {}
            Op::Jmp { target } => self.put_jump(code, target, place),
            Op::Call { target } => self.put_call(code, target, place, private),
            _ => self.put_copy(code, place),
        }
    }

    /// Writes the code for an asked instruction: a copy, and behind SYSCALL rcx becomes the address behind the original.
    fn put_asked(&self, code: &mut CodeWriter, form: &AskedForm, place: u32)
        requires spelled { IsSpelling self.now.bytes.now self.now.parts }
        requires room { length code.old ≤ 60 }
        requires place { place + 60 < 2 ^ 31 }
        ensures { (f : Fields) → IsInstruction f → self.now.bytes.now ≡ spelling f
            → code.new ≡ code.old ++ relocating.asked_code form.now.syscall
            (relocating.copy_of f self.now.next place) self.now.next }
    {
        self.put_copy(code, place);
        if form.syscall {
            code.put_ecx(self.next);
        }
    }

    /// Writes the code for an instruction that has some.
    fn put_insn(&self, code: &mut CodeWriter, insn: &Insn, place: u32, private: u32)
        requires spelled { IsSpelling self.now.bytes.now self.now.parts }
        requires low { displacing.is_low self.now.next (direct_target insn.now) ≡ true }
        requires condition { displacing.has_condition insn.now ≡ true }
        requires room { length code.old ≤ 60 }
        requires place { place + 60 < 2 ^ 31 }
        requires private { private < 0x7FFF0000 }
        ensures { (f : Fields) → IsInstruction f → self.now.bytes.now ≡ spelling f
            → code.new ≡ code.old ++ relocating.relocated_by insn.now private f self.now.next
            place }
    {
        match insn {
            Insn::Exact(op) => self.put_op(code, op, place, private),
            Insn::Asked(form) => self.put_asked(code, form, place),
            Insn::Ending => {}
        }
    }
}

/// The code at `to` that does the work of the instruction of these bytes at `from`, without a jump back.
///
/// The private range begins at `private`: the code for a call through an operand writes its bytes 0 to 7 and 16 to 23. The code falls
/// through, to the byte after its last one, for all but jumps, calls and returns.
/// `NotRelocatable` comes exactly where `displaced_len` is `None`. (Intel SDM, volume 2, CALL, JMP, Jcc, SYSCALL, and section 2.2.1.6.)
pub fn relocate(
    insn: &Insn,
    bytes: &[u8],
    from: u32,
    to: u32,
    private: u32,
) -> Result<Code, NotRelocatable>
    requires spelled { Spells bytes.now insn.now }
    requires from { from + length bytes.now ≤ 0x7FFF0000 }
    requires to { to < 0x7FFF0080 }
    requires private { private < 0x7FFF0000 }
    ensures code { (f : Fields) → IsInstruction f → bytes.now ≡ spelling f
        → IfOk result (λ c. c.bytes ≡ relocating.relocated_code private f
        (from + length bytes.now) to) }
    ensures works { (f : Fields) → IsInstruction f → bytes.now ≡ spelling f
        → IfOk result (λ c. DoesWork c.bytes f from to private) }
    ensures falls { IfOk result (λ c. c.falls ≡ displacing.falls insn.now) }
    ensures few { IfOk result (λ c. length c.bytes ≤ 46) }
    ensures len { MatchResult result (λ c. displacing.displaced_len insn.now (length bytes.now) from
        ≡ Some (length c.bytes)) (λ _. displacing.displaced_len insn.now (length bytes.now) from
        ≡ None) }
{
    let len = bytes.len() as u8;
    if displaced_len(insn, len, from).is_none() {
        return Err(NotRelocatable);
    }
    let Shape::Known(parts) = decode(bytes) else {
        unreachable!()
    };
    let source = Source {
        bytes,
        parts,
        next: from + u32::from(len),
    };
    let mut code = CodeWriter::new();
    source.put_insn(&mut code, insn, to, private);
    Ok(code.code(falls(insn)))
}
