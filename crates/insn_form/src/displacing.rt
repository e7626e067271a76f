//! Instructions that are moved elsewhere: how many bytes their work takes there.
ghost use Rattle.std.specs.Prelude.{◌≡◌, ◌≤◌, IfSome};
ghost use Rattle.insn_form.specs.Displacing as displacing;
ghost use Rattle.insn_form.specs.Moved.{direct_target};
ghost use Rattle.insn_form.specs.Displacing.{IsSpelledBy, HasConditionCode};

use crate::form::{AskedForm, Insn, MemForm, Op, Seg, Spot, Target, Value};
use pun_base::limits::JUMP_LEN;

/// Addresses of code and data that code below it reaches by 32 bits with a sign are below 2^31.
const LOW_END: u64 = 0x8000_0000;

/// How far from the next instruction a direct branch leads.
fn direct(insn: &Insn) -> Option<i32>
    ensures { result ≡ direct_target insn.now }
{
    match insn {
        Insn::Exact(
            Op::Jcc { rel, .. }
            | Op::Loop { rel, .. }
            | Op::Jmp {
                target: Target::Rel(rel),
            }
            | Op::Call {
                target: Target::Rel(rel),
            },
        ) => Some(*rel),
        Insn::Exact(_) | Insn::Asked(_) | Insn::Ending => None,
    }
}

fn rip_of(mem: &MemForm) -> Option<i32>
    ensures { result ≡ displacing.rip_of mem.now }
{
    if mem.rip { Some(mem.disp) } else { None }
}

fn spot_rip(spot: &Spot) -> Option<i32>
    ensures { result ≡ displacing.spot_rip spot.now }
{
    match spot {
        Spot::Mem(mem) => rip_of(mem),
        Spot::Reg(_) | Spot::High(_) => None,
    }
}

fn value_rip(value: &Value) -> Option<i32>
    ensures { result ≡ displacing.value_rip value.now }
{
    match value {
        Value::Spot(spot) => spot_rip(spot),
        Value::Imm(_) | Value::Cl => None,
    }
}

fn target_rip(target: &Target) -> Option<i32>
    ensures { result ≡ displacing.target_rip target.now }
{
    match target {
        Target::Rel(_) => None,
        Target::Through(spot) => spot_rip(spot),
    }
}

/// The displacement of an operation's RIP operand.
fn op_rip(op: &Op) -> Option<i32>
    ensures { result ≡ displacing.op_rip op.now }
{
    match op {
        Op::Mov { dst, src, .. } | Op::Alu { dst, src, .. } => spot_rip(dst).or(value_rip(src)),
        Op::Xchg { a, b, .. } => spot_rip(a).or(spot_rip(b)),
        Op::Extend { src, .. } | Op::Cmov { src, .. } => spot_rip(src),
        Op::Lea { mem, .. } => rip_of(mem),
        Op::Nop { rip_disp } => *rip_disp,
        Op::Push { src } => value_rip(src),
        Op::Pop { dst } | Op::Not { dst, .. } | Op::Set { dst, .. } => spot_rip(dst),
        Op::Jmp { target } | Op::Call { target } => target_rip(target),
        Op::Widen { .. }
        | Op::Leave
        | Op::Cmc
        | Op::Clc
        | Op::Stc
        | Op::Sahf
        | Op::Lahf
        | Op::Jcc { .. }
        | Op::Loop { .. }
        | Op::Ret { .. } => None,
    }
}

fn insn_rip(insn: &Insn) -> Option<i32>
    ensures { result ≡ displacing.insn_rip insn.now }
{
    match insn {
        Insn::Exact(op) => op_rip(op),
        Insn::Asked(form) => form.rip_disp,
        Insn::Ending => None,
    }
}

/// Whether a place so far from the next instruction is below 2^31, if there is one.
fn is_low(next: u64, rel: Option<i32>) -> bool
    ensures { result ≡ displacing.is_low next rel }
{
    match rel {
        None => true,
        Some(rel) => next.wrapping_add(i64::from(rel).cast_unsigned()) < LOW_END,
    }
}

/// Bytes of the prefixes 64, 65 and 67 of an operand.
fn prefix_count(seg: Seg, short: bool) -> u8
    ensures value { result ≡ displacing.prefix_count seg short }
    ensures few { result ≤ 2 }
{
    match seg {
        Seg::Plain => u8::from(short),
        Seg::Fs | Seg::Gs => if short { 2 } else { 1 },
    }
}

/// Bytes of the load of a call's operand.
fn load_length(spot: &Spot) -> u8
    requires { displacing.spot_tail spot.now ≤ 6 }
    ensures value { result ≡ displacing.load_length spot.now }
    ensures few { result ≤ 10 }
{
    match spot {
        Spot::Reg(_) | Spot::High(_) => 3,
        Spot::Mem(mem) => 2 + mem.tail + prefix_count(mem.seg, mem.short),
    }
}

/// Bytes of the code for an asked instruction of `len` bytes.
fn asked_length(form: &AskedForm, len: u8) -> Option<u8>
    requires { len ≤ 15 }
    ensures value { result ≡ displacing.asked_length form.now len }
    ensures few { IfSome result (λ n. n ≤ 46) }
{
    if !form.copied {
        None
    } else if form.syscall {
        Some(len + 5)
    } else {
        Some(len)
    }
}

/// Bytes of the code for a call.
fn call_length(target: &Target) -> u8
    requires { displacing.target_tail target.now ≤ 6 }
    ensures value { result ≡ displacing.call_length target.now }
    ensures few { result ≤ 46 }
{
    match target {
        Target::Rel(_) => 10,
        Target::Through(spot) => 36 + load_length(spot),
    }
}

/// Bytes of the code for an operation of known meaning, of `len` bytes.
fn op_length(op: &Op, len: u8) -> Option<u8>
    requires tail { displacing.op_tail op.now ≤ 6 }
    requires few { len ≤ 15 }
    ensures value { result ≡ displacing.op_length op.now len }
    ensures few { IfSome result (λ n. n ≤ 46) }
{
    match op {
        Op::Jcc { .. } => Some(6),
        Op::Loop { .. } => None,
        Op::Jmp {
            target: Target::Rel(_),
        } => Some(JUMP_LEN),
        Op::Call { target } => Some(call_length(target)),
        _ => Some(len),
    }
}

/// Bytes of the code for an instruction of `len` bytes that stands low enough.
fn code_length(insn: &Insn, len: u8) -> Option<u8>
    requires { IsSpelledBy insn.now len }
    ensures value { result ≡ displacing.code_length insn.now len }
    ensures few { IfSome result (λ n. n ≤ 46) }
{
    match insn {
        Insn::Exact(op) => op_length(op, len),
        Insn::Asked(form) => asked_length(form, len),
        Insn::Ending => None,
    }
}

/// How many bytes the code has that does the work of an instruction somewhere else.
///
/// The instruction has `len` bytes and stands at `from`. The code has at most 46. `None` stands for: it is one of the counted loops and JRCXZ, it has no step, no copy
/// of it is taken, or it names a place outside the first 2^31 bytes, by a direct target or by an operand relative to the next instruction
/// (Intel SDM, volume 2, sections 2.2.1.6, CALL, JMP and Jcc).
pub fn displaced_len(insn: &Insn, len: u8, from: u32) -> Option<u8>
    requires { IsSpelledBy insn.now len }
    ensures value { result ≡ displacing.displaced_len insn.now len from }
    ensures few { IfSome result (λ n. n ≤ 46) }
{
    let next = u64::from(from) + u64::from(len);
    if is_low(next, direct(insn)) && is_low(next, insn_rip(insn)) {
        code_length(insn, len)
    } else {
        None
    }
}

/// Whether that code may go on to the byte after it. It doesn't for jumps, calls, returns, and what has no step.
pub fn falls(insn: &Insn) -> bool
    ensures { result ≡ displacing.falls insn.now }
{
    match insn {
        Insn::Exact(Op::Jmp { .. } | Op::Call { .. } | Op::Ret { .. }) | Insn::Ending => false,
        Insn::Exact(_) | Insn::Asked(_) => true,
    }
}

/// The condition code of each conditional branch is one of sixteen (Intel SDM, volume 2, appendix B.1.4.7).
pub fn condition_codes()
    ensures { HasConditionCode }
{}
