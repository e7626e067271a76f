//! What an instruction is before its operands, by its prefixes, its opcode and its ModRM byte (Intel SDM, volume 2, appendix A).
ghost use Rattle.std.specs.Prelude.{◌≡◌};
ghost use Rattle.insn_form.specs.Classes as classes;
ghost use Rattle.insn_form.specs.Kinds as kinds;

use crate::bits::{clashes, mod_bits, modrm, reg_bits, repeats, rex_b, rex_w};
use crate::branches::{branch_one, branch_two, ends_one, ends_two};
use crate::kinds::{Kind, ONE_BYTE};
use crate::rows::{
    alu_row, condition_row, extend_one, extend_two, flag_row, lea_row, leave_row, mov_row, nop_one,
    nop_two, shift_row, stack_row, test_row, unary_row, unless_opsize, widen_row, xchg_row,
};
use crate::template::Template;
use length_decode::Parts;

/// The exact instruction of a kind of opcode, if it is one.
fn exact_by(kind: Kind, parts: &Parts) -> Option<Template>
    ensures { result ≡ kinds.exact_by kind parts.now }
{
    let op = parts.opcode;
    let reg = reg_bits(parts);
    let opsize = parts.prefixes.opsize;
    match kind {
        Kind::Move | Kind::MoveConstant => mov_row(op, reg),
        Kind::Extend => extend_one(op, rex_w(parts)),
        Kind::Lea => lea_row(op, mod_bits(parts)),
        Kind::Xchg => xchg_row(op, mod_bits(parts), rex_b(parts)),
        Kind::XchgOrNop => xchg_row(op, mod_bits(parts), rex_b(parts)).or(nop_one(
            op,
            rex_b(parts),
        )),
        Kind::Stack => unless_opsize(opsize, stack_row(op, reg)),
        Kind::Alu => alu_row(op, reg),
        Kind::Test => test_row(op, reg),
        Kind::TestOrUnary => test_row(op, reg).or(unary_row(op, reg)),
        Kind::Unary => unary_row(op, reg),
        Kind::Group => unless_opsize(opsize, stack_row(op, reg)).or(unary_row(op, reg)),
        Kind::Shift => shift_row(op, reg),
        Kind::Widen => widen_row(op),
        Kind::Leave => unless_opsize(opsize, leave_row(op)),
        Kind::Flag => flag_row(op),
        Kind::Ending | Kind::Branch | Kind::Asked => None,
    }
}

fn exact_two(parts: &Parts) -> Option<Template>
    ensures { result ≡ classes.exact_two parts.now }
{
    let op = parts.opcode;
    extend_two(op, parts.prefixes.opsize).or(nop_two(op).or(condition_row(op)))
}

fn is_repeated_nop(parts: &Parts) -> bool
    ensures { result ≡ classes.is_repeated_nop parts.now }
{
    parts.prefixes.rep && !parts.prefixes.lock && !parts.prefixes.repne
}

fn is_pause(parts: &Parts) -> bool
    ensures { result ≡ classes.is_pause parts.now }
{
    is_repeated_nop(parts) && parts.opcode == 0x90 && rex_b(parts) == 0
}

fn is_landing(parts: &Parts) -> bool
    ensures { result ≡ classes.is_landing parts.now }
{
    is_repeated_nop(parts) && parts.opcode == 0x1e && modrm(parts) == 0xfa
}

fn asked_one(parts: &Parts) -> Template
    ensures { result ≡ classes.asked_one parts.now }
{
    Template::Asked {
        syscall: false,
        copied: !matches!(parts.opcode, 0xd8..=0xdf | 0x9b),
    }
}

fn is_system_call(parts: &Parts) -> bool
    ensures { result ≡ classes.is_system_call parts.now }
{
    parts.opcode == 0x05 && !parts.prefixes.lock
}

fn is_repeated_syscall(parts: &Parts) -> bool
    ensures { result ≡ classes.is_repeated_syscall parts.now }
{
    parts.opcode == 0x05 && (parts.prefixes.repne || parts.prefixes.rep)
}

fn asked_two(parts: &Parts) -> Template
    ensures { result ≡ classes.asked_two parts.now }
{
    Template::Asked {
        syscall: is_system_call(parts),
        copied: !(matches!(parts.opcode, 0x00 | 0x01 | 0xae | 0xc7) || is_repeated_syscall(parts)),
    }
}

fn exact_or_asked(repeated: bool, nop: bool, exact: Option<Template>, asked: Template) -> Template
    ensures { result ≡ classes.exact_or_asked repeated nop exact asked }
{
    if !repeated {
        exact.unwrap_or(asked)
    } else if nop {
        Template::Nop
    } else {
        asked
    }
}

/// An exact instruction, or one that `F0`, `F2` or `F3` makes asked.
fn exact_else_asked(parts: &Parts, exact: Option<Template>) -> Template
    ensures { result ≡ kinds.exact_else_asked parts.now exact }
{
    match exact {
        Some(template) if !repeats(parts) => template,
        _ => exact_or_asked(repeats(parts), is_pause(parts), exact, asked_one(parts)),
    }
}

/// What an instruction is by the kind of its opcode.
fn one_byte_by(kind: Kind, parts: &Parts) -> Template
    ensures { result ≡ kinds.one_byte_by kind parts.now }
{
    match kind {
        Kind::Ending => return Template::Ending,
        Kind::Branch => {
            if let Some(template) = branch_one(parts) {
                return template;
            }
        }
        Kind::MoveConstant | Kind::Unary | Kind::Group => {
            if ends_one(parts.opcode, reg_bits(parts)) {
                return Template::Ending;
            }
            if let (Kind::Group, Some(template)) = (kind, branch_one(parts)) {
                return template;
            }
        }
        _ => {}
    }
    exact_else_asked(parts, exact_by(kind, parts))
}

fn one_byte(parts: &Parts) -> Template
    ensures { result ≡ classes.one_byte parts.now }
{
    one_byte_by(ONE_BYTE[usize::from(parts.opcode)], parts)
}

fn two_byte(parts: &Parts) -> Template
    ensures { result ≡ classes.two_byte parts.now }
{
    if ends_two(parts.opcode) {
        return Template::Ending;
    }
    branch_two(parts).unwrap_or(exact_or_asked(
        repeats(parts),
        is_landing(parts),
        exact_two(parts),
        asked_two(parts),
    ))
}

/// What an instruction is before its operands; those of the maps 0F 38, 0F 3A and VEX are asked.
#[tactic(auto, unfolding(crate::specs::Classes::template))]
pub(crate) fn template(parts: &Parts) -> Template
    ensures { result ≡ classes.template parts.now }
{
    if clashes(parts) {
        return Template::Ending;
    }
    match parts.map {
        0 => one_byte(parts),
        1 => two_byte(parts),
        _ => Template::Asked {
            syscall: false,
            copied: true,
        },
    }
}
