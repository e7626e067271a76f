//! The instruction that bytes spell.
ghost use Rattle.std.specs.Prelude.{◌≡◌, ◌≤◌, length, Ok, IsSome, IfSome};
ghost use Rattle.length_decode.specs.Parse.{parse};
ghost use Rattle.length_decode.specs.Spelling.{Fields, IsInstruction, IsSpelling, BeginsWith, spelling};
ghost use Rattle.insn_form.specs.Filling as filling;
ghost use Rattle.insn_form.specs.Instruction.{Classifies, Spells, insn_of};

use crate::classes::template;
use crate::constants::extra;
use crate::form::{AskedForm, Insn, Op, Target};
use crate::operands::Form;
use crate::template::Template;
use cpu_alu::Width;
use length_decode::{Parts, Shape, decode};

/// The template with its operands.
#[tactic(auto, unfolding(crate::specs::Filling::filled))]
fn filled(template: Template, form: &Form) -> Insn
    ensures { result ≡ filling.filled template form.now.parts form.now.disp.now form.now.imm.now }
{
    Insn::Exact(match template {
        Template::Mov { byte, dst, src } => Op::Mov {
            width: form.width(byte),
            dst: form.spot(byte, dst),
            src: form.value(form.width(byte), byte, src),
        },
        Template::Extend { signed, from } => Op::Extend {
            signed,
            from,
            width: form.width(false),
            dst: form.reg(),
            src: form.rm_of(from),
        },
        Template::Lea => Op::Lea {
            width: form.width(false),
            dst: form.reg(),
            mem: form.memory(),
        },
        Template::Xchg { byte, a, b } => Op::Xchg {
            width: form.width(byte),
            a: form.spot(byte, a),
            b: form.spot(byte, b),
        },
        Template::Nop => Op::Nop {
            rip_disp: form.rip_disp(),
        },
        Template::Push { src } => Op::Push {
            src: form.value(Width::W64, false, src),
        },
        Template::Pop { dst } => Op::Pop {
            dst: form.spot(false, dst),
        },
        Template::Alu {
            op,
            byte,
            dst,
            src,
            keep,
        } => Op::Alu {
            op,
            width: form.width(byte),
            dst: form.spot(byte, dst),
            src: form.value(form.width(byte), byte, src),
            keep,
        },
        Template::Not { byte } => Op::Not {
            width: form.width(byte),
            dst: form.rm(byte),
        },
        Template::Cmov { cc } => Op::Cmov {
            cc,
            width: form.width(false),
            dst: form.reg(),
            src: form.rm(false),
        },
        Template::Set { cc } => Op::Set {
            cc,
            dst: form.rm(true),
        },
        Template::Widen { high } => Op::Widen {
            width: form.width(false),
            high,
        },
        Template::Leave => Op::Leave,
        Template::Cmc => Op::Cmc,
        Template::Clc => Op::Clc,
        Template::Stc => Op::Stc,
        Template::Sahf => Op::Sahf,
        Template::Lahf => Op::Lahf,
        Template::Jcc { cc } => Op::Jcc {
            cc,
            rel: form.rel(),
        },
        Template::Loop { kind } => Op::Loop {
            kind,
            rel: form.rel(),
            short: form.parts.prefixes.addrsize,
        },
        Template::Jmp => Op::Jmp {
            target: Target::Rel(form.rel()),
        },
        Template::JmpThrough => Op::Jmp {
            target: Target::Through(form.rm(false)),
        },
        Template::Call => Op::Call {
            target: Target::Rel(form.rel()),
        },
        Template::CallThrough => Op::Call {
            target: Target::Through(form.rm(false)),
        },
        Template::Ret => Op::Ret {
            extra: extra(form.imm),
        },
        Template::Asked { syscall, copied } => {
            return Insn::Asked(AskedForm {
                rip_disp: form.rip_disp(),
                syscall,
                copied,
            });
        }
        Template::Ending => return Insn::Ending,
    })
}

/// The instruction that the bytes spell, which have these parts (Intel SDM, volume 2, section 2.1 and the instructions' pages).
pub fn classify(parts: &Parts, bytes: &[u8]) -> Insn
    requires { IsSpelling bytes.now parts.now }
    ensures { Classifies bytes.now result }
{
    let disp_at = usize::from(parts.disp_at);
    let imm_at = usize::from(parts.imm_at);
    let form = Form {
        parts: *parts,
        disp: &bytes[disp_at..disp_at + usize::from(parts.disp_len)],
        imm: &bytes[imm_at..imm_at + usize::from(parts.imm_len)],
    };
    filled(template(parts), &form)
}

/// The instruction at the front of bytes, which has these parts.
pub fn front_form(parts: &Parts, bytes: &[u8]) -> Insn
    requires { BeginsWith bytes.now parts.now }
    ensures { (f : Fields) → parse bytes.now ≡ Ok f → result ≡ insn_of f }
{
    classify(parts, &bytes[..usize::from(parts.len)])
}

/// The instruction that bytes spell, where nothing stands behind it.
pub fn whole_form(bytes: &[u8]) -> Option<Insn>
    ensures spelled { IfSome result (Spells bytes.now) }
    ensures any { (f : Fields) → IsInstruction f → bytes.now ≡ spelling f → IsSome result }
    ensures few { IfSome result (λ _. length bytes.now ≤ 15) }
{
    let Shape::Known(parts) = decode(bytes) else {
        return None;
    };
    if usize::from(parts.len) == bytes.len() {
        Some(classify(&parts, bytes))
    } else {
        None
    }
}
