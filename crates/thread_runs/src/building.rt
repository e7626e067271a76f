//! Trampolines for guests of several threads (Intel SDM, volume 2, MOV, LAHF, SETcc, CMP, Jcc, INC, XADD, MOVZX, ADD, SAHF, PUSH, JMP).
ghost use Rattle.std.specs.Prelude.{◌≡◌, ◌+◌, ◌≤◌, ◌<◌, ◌^◌, ◌++◌, ◌∷◌, [], false, length, IfOk, MatchResult, Some, None};
ghost use Rattle.pun_base.specs.declared.action.Base.TheVariants.{Count};
ghost use Rattle.pun_base.specs.Actions.{AreComparisons, listed};
ghost use Rattle.pun_base.specs.Limits.{most_sites};
ghost use Rattle.length_decode.specs.Spelling.{Fields, IsInstruction, spelling};
ghost use Rattle.relocate_insn.specs.Relocating.{Spells};
ghost use Rattle.cond_action.specs.Codes.{compare_code, failing};
ghost use Rattle.thread_runs.specs.ThreadCode.{thread_code, saving_code, restoring_code, marking_code, marking_len, compare_with, compare_len, checking_len, checking_code, saving_event, position_at, keep_ax, load_one, claiming_code, reducing, ring_event, event_len, event_if, code_if, call_reg_code};
ghost use Rattle.trampoline.specs.Atomic.{thread_len};
ghost use Rattle.thread_runs.specs.Building.{target_spot, op_spot, called_spot, spot_register, call_register, work_by, conditions_of, CanBeAsked, event_of, when_of, CanBeShared, thread_size, size_if};

use code_bytes::code::Code;
use insn_form::{Insn, Op, Spot, Target};
use pun_base::action::{Action, Base, CompareOp, Comparison, Comparisons};
use pun_base::limits::{COUNTER_LEN, DATA_AT, SLOT_LEN};
use relocate_insn::writer::CodeWriter;
use relocate_insn::{NotRelocatable, relocate};
use trampoline::put_back;

/// How many bytes the event of a ring has.
const RING_EVENT_LEN: u32 = 67;

/// The operand of an indirect call.
fn target_operand(target: &Target) -> Option<Spot>
    ensures { result ≡ target_spot target.now }
{
    match target {
        Target::Rel(_) => None,
        Target::Through(spot) => Some(*spot),
    }
}

fn op_operand(op: &Op) -> Option<Spot>
    ensures { result ≡ op_spot op.now }
{
    match op {
        Op::Call { target } => target_operand(target),
        _ => None,
    }
}

fn called_operand(insn: &Insn) -> Option<Spot>
    ensures { result ≡ called_spot insn.now }
{
    match insn {
        Insn::Exact(op) => op_operand(op),
        Insn::Asked(_) | Insn::Ending => None,
    }
}

/// The register of an operand; none for rsp and for memory.
fn operand_register(spot: Spot) -> Option<u8>
    ensures { result ≡ spot_register spot }
{
    match spot {
        Spot::Reg(4) => None,
        Spot::Reg(r) => Some(r),
        Spot::High(_) | Spot::Mem(_) => None,
    }
}

/// Writes MOV of 1 to the byte of site `number`, or LOCK INC of its counter.
fn put_marking(code: &mut CodeWriter, base: Base, private: u32, number: u32)
    requires room { length code.old + 9 ≤ 128 }
    requires number { number < most_sites }
    requires private { private < 0x7FFF0000 }
    ensures { code.new ≡ code.old ++ marking_code base private number }
{
    match base {
        Base::Cover => {
            code.put(&[0xC6, 0x04, 0x25]);
            code.put_address(private + DATA_AT + number);
            code.put(&[1]);
        }
        Base::Count => {
            code.put(&[0xF0, 0x48, 0xFF, 0x04, 0x25]);
            code.put_address(private + DATA_AT + COUNTER_LEN * number);
        }
    }
}

/// How many bytes this has.
fn marking_size(base: Base) -> u8
    ensures value { result ≡ marking_len base }
    ensures few { result ≤ 9 }
{
    match base {
        Base::Cover => 8,
        Base::Count => 9,
    }
}

/// Writes CMP of a register with a number.
fn put_register_compare(code: &mut CodeWriter, reg: u8, value: u32)
    requires room { length code.old + 12 ≤ 128 }
    requires reg { reg < 16 }
    requires value { value < 2 ^ 31 }
    ensures { code.new ≡ code.old ++ compare_code reg value }
{
    code.put(&[if reg < 8 { 0x48 } else { 0x49 }, 0x81, 0xF8 + reg % 8]);
    code.put_address(value);
}

/// Writes CMP with a number: of a register, or, for rax, of the eight bytes in which it is saved.
fn put_compare(code: &mut CodeWriter, reg: u8, value: u32)
    requires room { length code.old + 12 ≤ 128 }
    requires reg { reg < 16 }
    requires value { value < 2 ^ 31 }
    ensures { code.new ≡ code.old ++ compare_with reg value }
{
    if reg == 0 {
        code.put(&[0x48, 0x81, 0xBC, 0x24, 0x78, 0xFF, 0xFF, 0xFF]);
        code.put_address(value);
    } else {
        put_register_compare(code, reg, value);
    }
}

/// The opcode of the short jump that is taken where a comparison fails: `jne`, `je`, `jae`, `ja`, `jbe`, `jb`.
fn failing_jump(op: CompareOp) -> u8
    ensures { result ≡ 0x70 + failing op }
{
    match op {
        CompareOp::Eq => 0x75,
        CompareOp::Ne => 0x74,
        CompareOp::Lt => 0x73,
        CompareOp::Le => 0x77,
        CompareOp::Gt => 0x76,
        CompareOp::Ge => 0x72,
    }
}

/// Writes a comparison, and a short jump over so many bytes where it fails.
fn put_check(code: &mut CodeWriter, one: Comparison, over: u8)
    requires room { length code.old + 14 ≤ 128 }
    requires reg { one.reg < 16 }
    requires value { one.value < 2 ^ 31 }
    ensures { code.new ≡ code.old ++ (compare_with one.reg one.value ++ ((0x70 + failing one.op) ∷ over ∷ [])) }
{
    put_compare(code, one.reg, one.value);
    code.put(&[failing_jump(one.op), over]);
}

/// How many bytes a comparison has with its jump.
fn check_size(one: Comparison) -> u8
    ensures value { result ≡ compare_len one.reg + 2 }
    ensures few { result ≤ 14 }
{
    match one.reg {
        0 => 14,
        _ => 9,
    }
}

/// Writes the comparisons, each with a jump over those behind it and so many bytes more.
fn put_checks(code: &mut CodeWriter, list: Comparisons, more: u8)
    requires room { length code.old + 42 ≤ 128 }
    requires list { AreComparisons (listed list) }
    requires more { more ≤ 9 }
    ensures { code.new ≡ code.old ++ checking_code (listed list) more }
{
    match list {
        Comparisons::One(a) => put_check(code, a, more),
        Comparisons::Two(a, b) => {
            put_check(code, a, check_size(b) + more);
            put_check(code, b, more);
        }
        Comparisons::Three(a, b, c) => {
            let last = check_size(c) + more;
            put_check(code, a, check_size(b) + last);
            put_check(code, b, last);
            put_check(code, c, more);
        }
    }
}

/// Writes the comparisons of a condition, where there is one.
fn put_condition(code: &mut CodeWriter, when: Option<Comparisons>, more: u8)
    requires room { length code.old + 42 ≤ 128 }
    requires when { CanBeAsked when }
    requires more { more ≤ 9 }
    ensures code { code.new ≡ code.old ++ checking_code (conditions_of when) more }
    ensures room { length code.new ≤ length code.old + 42 }
{
    if let Some(list) = when {
        put_checks(code, list, more);
    }
}

/// Writes MOV [rsp - 136], rax; LAHF; SETO al.
fn put_saving(code: &mut CodeWriter)
    requires room { length code.old + 12 ≤ 128 }
    ensures { code.new ≡ code.old ++ saving_code }
{
    code.put(&[0x48, 0x89, 0x84, 0x24, 0x78, 0xFF, 0xFF, 0xFF]);
    code.put(&[0x9F, 0x0F, 0x90, 0xC0]);
}

/// Writes ADD al, 7F; SAHF; MOV rax, [rsp - 136].
fn put_restoring(code: &mut CodeWriter)
    requires room { length code.old + 11 ≤ 128 }
    ensures { code.new ≡ code.old ++ restoring_code }
{
    code.put(&[0x04, 0x7F, 0x9E]);
    code.put(&[0x48, 0x8B, 0x84, 0x24, 0x78, 0xFF, 0xFF, 0xFF]);
}

/// Writes an event of site `number` that saves rax and the flags, and marks.
fn put_saving_event(
    code: &mut CodeWriter,
    base: Base,
    when: Option<Comparisons>,
    private: u32,
    number: u32,
)
    requires room { length code.old ≤ 6 }
    requires when { CanBeAsked when }
    requires number { number < most_sites }
    requires private { private < 0x7FFF0000 }
    ensures { code.new ≡ code.old ++ saving_event base (conditions_of when) private number }
{
    put_saving(code);
    put_condition(code, when, marking_size(base));
    put_marking(code, base, private, number);
    put_restoring(code);
}

/// Writes MOV [rsp - 144], rax; MOV eax, 1; LOCK XADD of the four bytes at the position of a ring with eax.
fn put_claim(code: &mut CodeWriter, private: u32)
    requires room { length code.old + 22 ≤ 128 }
    requires private { private < 0x7FFF0000 }
    ensures { code.new ≡ code.old ++ (keep_ax ++ (load_one ++ claiming_code (position_at private))) }
{
    code.put(&[0x48, 0x89, 0x84, 0x24, 0x70, 0xFF, 0xFF, 0xFF]);
    code.put(&[0xB8, 0x01, 0x00, 0x00, 0x00]);
    code.put(&[0xF0, 0x0F, 0xC1, 0x04, 0x25]);
    code.put_address(private + DATA_AT);
}

/// The opcode of MOVZX from a byte for 256 slots, and from a word for 65,536.
fn reducing_opcode(len: u32) -> u8
    ensures { result ≡ reducing len }
{
    if len == 256 { 0xB6 } else { 0xB7 }
}

/// Writes the event of site `number` that keeps a ring of so many slots.
fn put_ring_event(code: &mut CodeWriter, len: u32, private: u32, number: u32)
    requires room { length code.old ≤ 6 }
    requires number { number < most_sites }
    requires private { private < 0x7FFF0000 }
    ensures { code.new ≡ code.old ++ ring_event len private number }
{
    put_saving(code);
    put_claim(code, private);
    code.put(&[0x0F, reducing_opcode(len), 0xC0, 0xC7, 0x04, 0x85]);
    code.put_address(private + (DATA_AT + SLOT_LEN));
    code.put_address(number + 1);
    code.put(&[0x48, 0x8B, 0x84, 0x24, 0x70, 0xFF, 0xFF, 0xFF]);
    put_restoring(code);
}

/// Writes the event of site `number`, where there is one.
fn put_event_if(code: &mut CodeWriter, event: Option<Action>, private: u32, number: u32)
    requires room { length code.old ≤ 2 }
    requires event { CanBeShared event }
    requires number { number < most_sites }
    requires private { private < 0x7FFF0000 }
    ensures code { code.new ≡ code.old ++ event_if (event_of event) (when_of event) private number }
    ensures room { length code.new ≤ 76 }
{
    match event {
        None => {}
        Some(Action::Cover) => put_marking(code, Base::Cover, private, number),
        Some(Action::Count) => put_saving_event(code, Base::Count, None, private, number),
        Some(Action::Ring { len }) => put_ring_event(code, len, private, number),
        Some(Action::When { base, list }) => {
            put_saving_event(code, base, Some(list), private, number)
        }
    }
}

/// How many bytes the comparisons have.
fn checks_size(list: Comparisons) -> u32
    ensures value { result ≡ checking_len (listed list) }
    ensures few { result ≤ 42 }
{
    match list {
        Comparisons::One(a) => u32::from(check_size(a)),
        Comparisons::Two(a, b) => u32::from(check_size(a) + check_size(b)),
        Comparisons::Three(a, b, c) => u32::from(check_size(a) + check_size(b) + check_size(c)),
    }
}

/// How many bytes the event of a trampoline has.
fn event_size(event: Option<Action>) -> u32
    ensures value { result ≡ event_len (event_of event) (when_of event) }
    ensures few { result ≤ 74 }
{
    match event {
        None => 0,
        Some(Action::Cover) => 8,
        Some(Action::Count) => 32,
        Some(Action::Ring { .. }) => RING_EVENT_LEN,
        Some(Action::When { base, list }) => 23 + u32::from(marking_size(base)) + checks_size(list),
    }
}

/// Writes a call through a register: PUSH, a jump, and NOPs up to 39 bytes.
fn put_call_register(code: &mut CodeWriter, register: u8, next: u32)
    requires room { length code.old ≤ 80 }
    ensures { code.new ≡ code.old ++ call_reg_code register next }
{
    code.put_push(next);
    if register < 8 {
        code.put(&[0xFF, 0xE0 + register % 8]);
        code.put(&[0x90; 32]);
    } else {
        code.put(&[0x41, 0xFF, 0xE0 + register % 8]);
        code.put(&[0x90; 31]);
    }
}

/// The register of an indirect call, and `None` for any other instruction. A call through memory or
/// rsp has no code.
fn register_of(insn: &Insn) -> Result<Option<u8>, NotRelocatable>
    ensures { MatchResult result (λ r. call_register insn.now ≡ Some r) (λ _. call_register insn.now ≡ None) }
{
    match called_operand(insn) {
        None => Ok(None),
        Some(spot) => match operand_register(spot) {
            None => Err(NotRelocatable),
            Some(register) => Ok(Some(register)),
        },
    }
}

/// Writes the code after the event: the relocated code and the jump back, or the call through a
/// register.
fn put_work(code: &mut CodeWriter, register: Option<u8>, work: &Code, to: u32, next: u32)
    requires room { length code.old ≤ 76 }
    requires few { length work.now.bytes ≤ 46 }
    requires to { to + 46 < 2 ^ 31 }
    ensures { code.new ≡ code.old ++ work_by register work.now.bytes work.now.falls to next }
{
    match register {
        Some(register) => put_call_register(code, register, next),
        None => {
            let bytes = work.bytes.as_slice();
            code.put(bytes);
            put_back(code, work.falls, to + bytes.len() as u32, next);
        }
    }
}

/// The trampoline at `place`, for a guest of several threads, of the instruction of these bytes at
/// `from`: the event of site `number`, which counts or covers where its condition holds, or keeps a ring, or, for a victim,
/// none, the relocated code, and a jump to the address after the instruction exactly where the relocated code falls through.
///
/// The private range begins at `private`. `NotRelocatable` comes exactly where `displaced_len` is
/// `None` or the instruction is an indirect call through memory or through rsp.
pub fn thread_trampoline(
    event: Option<Action>,
    insn: &Insn,
    bytes: &[u8],
    from: u32,
    place: u32,
    number: u32,
    private: u32,
) -> Result<Code, NotRelocatable>
    requires spelled { Spells bytes.now insn.now }
    requires from { from + length bytes.now ≤ 0x7FFF0000 }
    requires event { CanBeShared event }
    requires place { place + event_len (event_of event) (when_of event) < 0x7FFF0080 }
    requires private { private < 0x7FFF0000 }
    requires number { number < most_sites }
    ensures code { (f : Fields) → IsInstruction f → bytes.now ≡ spelling f
        → IfOk result (λ c. c.bytes ≡ code_if (event_of event) (when_of event) private number f (from + length bytes.now) place) }
    ensures falls { IfOk result (λ c. c.falls ≡ false) }
    ensures size { MatchResult result (λ c. size_if (event_of event) (when_of event) insn.now (length bytes.now) from
        ≡ Some (length c.bytes)) (λ _. thread_len insn.now (length bytes.now) from ≡ None) }
{
    let to = place + event_size(event);
    let work = relocate(insn, bytes, from, to, private)?;
    let register = register_of(insn)?;
    let mut code = CodeWriter::new();
    put_event_if(&mut code, event, private, number);
    put_work(&mut code, register, &work, to, from + bytes.len() as u32);
    Ok(code.code(false))
}

/// The trampoline of a site that counts under no condition: `thread_trampoline` with this event of site `number`.
pub fn thread_build(
    insn: &Insn,
    bytes: &[u8],
    from: u32,
    place: u32,
    number: u32,
    private: u32,
) -> Result<Code, NotRelocatable>
    requires spelled { Spells bytes.now insn.now }
    requires from { from + length bytes.now ≤ 0x7FFF0000 }
    requires place { place + 32 < 0x7FFF0080 }
    requires private { private < 0x7FFF0000 }
    requires number { number < most_sites }
    ensures code { (f : Fields) → IsInstruction f → bytes.now ≡ spelling f
        → IfOk result (λ c. c.bytes ≡ thread_code private number f (from + length bytes.now) place) }
    ensures falls { IfOk result (λ c. c.falls ≡ false) }
    ensures size { MatchResult result (λ c. thread_size insn.now (length bytes.now) from
        ≡ Some (length c.bytes)) (λ _. thread_len insn.now (length bytes.now) from ≡ None) }
{
    thread_trampoline(
        Some(Action::Count),
        insn,
        bytes,
        from,
        place,
        number,
        private,
    )
}
