//! Instructions that end a run, and branches.
ghost use Rattle.std.specs.Prelude.{◌≡◌};
ghost use Rattle.insn_form.specs.Classes as classes;

use crate::bits::{has_segment, reg_bits, repeats};
use crate::template::Template;
use length_decode::Parts;

pub(crate) fn ends_one(op: u8, reg: u8) -> bool
    ensures { result ≡ classes.ends_one op reg }
{
    match op {
        0x6c..=0x6f | 0xca..=0xcd | 0xcf | 0xe4..=0xe7 | 0xec..=0xef | 0xf1 | 0xf4 | 0xfa | 0xfb =>
            true,
        0xc6 | 0xc7 => reg != 0,
        0xfe => reg >= 2,
        0xff => matches!(reg, 3 | 5 | 7),
        _ => false,
    }
}

pub(crate) fn ends_two(op: u8) -> bool
    ensures { result ≡ classes.ends_two op }
{
    matches!(op, 0x06..=0x09 | 0x0b | 0x30 | 0x32 | 0x34 | 0x35 | 0xaa)
}

fn direct(parts: &Parts, template: Template) -> Template
    ensures { result ≡ classes.direct parts.now template }
{
    if repeats(parts) || has_segment(parts) {
        Template::Ending
    } else {
        template
    }
}

fn indirect(parts: &Parts, template: Template) -> Template
    ensures { result ≡ classes.indirect parts.now template }
{
    if repeats(parts) {
        Template::Ending
    } else {
        template
    }
}

/// `C3`, which `F3` may precede.
fn plain_return(parts: &Parts) -> Template
    ensures { result ≡ classes.plain_return parts.now }
{
    if parts.prefixes.lock || parts.prefixes.repne || has_segment(parts) {
        Template::Ending
    } else {
        Template::Ret
    }
}

/// `loopne`, `loope` and `loop`; with prefix 67 they end the run, since here they count in rcx alone.
fn counted_loop(parts: &Parts, kind: u8) -> Template
    ensures { result ≡ classes.counted_loop parts.now kind }
{
    if parts.prefixes.addrsize {
        Template::Ending
    } else {
        direct(parts, Template::Loop { kind })
    }
}

pub(crate) fn branch_one(parts: &Parts) -> Option<Template>
    ensures { result ≡ classes.branch_one parts.now }
{
    let op = parts.opcode;
    let reg = reg_bits(parts);
    match op {
        0x70..=0x7f => Some(direct(parts, Template::Jcc { cc: op % 16 })),
        0xe0..=0xe2 => Some(counted_loop(parts, op - 0xe0)),
        0xe3 => Some(direct(parts, Template::Loop { kind: 3 })),
        0xe8 => Some(direct(parts, Template::Call)),
        0xe9 | 0xeb => Some(direct(parts, Template::Jmp)),
        0xc2 => Some(direct(parts, Template::Ret)),
        0xc3 => Some(plain_return(parts)),
        0xff if reg == 2 => Some(indirect(parts, Template::CallThrough)),
        0xff if reg == 4 => Some(indirect(parts, Template::JmpThrough)),
        _ => None,
    }
}

pub(crate) fn branch_two(parts: &Parts) -> Option<Template>
    ensures { result ≡ classes.branch_two parts.now }
{
    match parts.opcode {
        0x80..=0x8f => Some(direct(
            parts,
            Template::Jcc {
                cc: parts.opcode % 16,
            },
        )),
        _ => None,
    }
}
