//! One step over a state.
ghost use Rattle.std.specs.Prelude.{◌≡◌, ◌≤◌, IfErr, IfOk, IfSome, option_copied, unwrap_or};
ghost use Rattle.cpu_state.specs.Bytes.{code_at};
ghost use Rattle.cpu_state.specs.Regions.{cell_at, extents};
ghost use Rattle.cpu_state.specs.Parts.{core_of};
ghost use Rattle.insn_form.specs.declared.form.Insn.TheVariants.{Exact, Asked};
ghost use Rattle.insn_form.specs.Machine.{put_all};
ghost use Rattle.insn_form.specs.Plan as plan;
ghost use Rattle.cpu_step.specs.Changing.{changed_with};
ghost use Rattle.cpu_step.specs.Facts.{told_info};
ghost use Rattle.cpu_step.specs.Kept.{IsFront, IsUnread, asked_of};
ghost use Rattle.cpu_step.specs.Stepping.{judged_in, fields_in, insn_in};
ghost use Rattle.cpu_step.specs.Steps.{told, Moved, Tells, Moves, OfSpelling, taken_of, taken_answer};
ghost use Rattle.cpu_step.specs.Steps.{Steps, Touches, Uses};

use crate::answering::{after_answer, has_byte, held_answer};
use crate::kept::{KeptInsn, KeptInsns};
use crate::operands::put_reg;
use crate::placing::place;
use crate::planning::{Planned, plan_exact};
use crate::step_info::{StepFacts, StepInfo, access_to, with_lists};
use crate::stop::Stop;
use cpu_alu::Flags;
use cpu_state::memory::Memory;
use cpu_state::state::{Core, State};
use cpu_state::world::{Answer, Entry};
use insn_form::{AskedForm, Insn, Op, Span, classify};
use length_decode::{Shape, decode};
use pun_base::byte_list::ByteList;

/// Writes the low bytes of a number.
fn write_number(memory: &mut Memory, span: Option<Span>, value: u64)
    requires { IfSome span (λ s. s.size ≤ 8) }
    ensures value { cell_at memory.new ≡ put_all (cell_at memory.old) (plan.writes_in span value) }
    ensures extents { extents memory.new ≡ extents memory.old }
{
    if let Some(span) = span {
        let bytes = value.to_le_bytes();
        memory.write(span.addr, &bytes[..usize::from(span.size)]);
    }
}

fn set_flags(flags: &mut Flags, given: Option<Flags>)
    ensures { flags.new ≡ unwrap_or given flags.old }
{
    if let Some(given) = given {
        *flags = given;
    }
}

fn set_parts(state: &mut State, planned: &Planned)
    ensures core { core_of state.new
        ≡ changed_with planned.now.changes planned.now.flags (core_of state.old) }
    ensures rip { state.new.rip ≡ planned.now.rip }
    ensures mem { state.new.mem ≡ state.old.mem }
{
    put_reg(&mut state.regs, planned.changes.first);
    put_reg(&mut state.regs, planned.changes.second);
    set_flags(&mut state.flags, planned.flags);
    state.rip = planned.rip;
}

fn apply(state: &mut State, planned: &Planned)
    requires { IfSome planned.now.write (λ s. s.size ≤ 8) }
    ensures moved { Moved (taken_of (core_of state.old) (Ok planned.now)) state.old state.new }
    ensures extents { extents state.new.mem ≡ extents state.old.mem }
{
    set_parts(state, planned);
    write_number(&mut state.mem, planned.write, planned.changes.value);
}

/// The answer to the instruction in front of the one at `after`.
fn apply_answer(state: &mut State, form: AskedForm, after: u64, answer: &Answer)
    ensures moved { Moved (Ok (taken_answer form after state.old answer.now)) state.old state.new }
    ensures extents { extents state.new.mem ≡ extents state.old.mem }
{
    let core = after_answer(form.syscall, after, answer, &state.core());
    place(state, &core, after, answer.writes.as_slice());
}

fn step_exact(
    state: &mut State,
    op: Op,
    insn: &KeptInsn,
    after: u64,
    next: Option<&Entry>,
) -> Result<StepFacts, Stop>
    ensures told { Tells (insn_in (Exact op) (asked_of insn.now.bytes after) after)
        next.entry state.old result }
    ensures moved { Moves (insn_in (Exact op) (asked_of insn.now.bytes after) after)
        next.entry state.old state.new }
    ensures extents { extents state.new.mem ≡ extents state.old.mem }
{
    let planned = plan_exact(state, op, insn, after, next)?;
    apply(state, &planned);
    Ok(StepFacts {
        read: access_to(planned.read),
        write: access_to(planned.write),
        used: planned.used,
        answer_wrote: false,
    })
}

#[inline(never)]
fn step_asked(
    state: &mut State,
    form: AskedForm,
    insn: &KeptInsn,
    after: u64,
    next: Option<&Entry>,
) -> Result<StepFacts, Stop>
    ensures told { Tells (insn_in (Asked form) (asked_of insn.now.bytes after) after)
        next.entry state.old result }
    ensures moved { Moves (insn_in (Asked form) (asked_of insn.now.bytes after) after)
        next.entry state.old state.new }
    ensures extents { extents state.new.mem ≡ extents state.old.mem }
{
    let asked = insn.asked(after);
    let answer = held_answer(state, asked, next)?;
    apply_answer(state, form, after, answer);
    Ok(StepFacts {
        read: access_to(None),
        write: access_to(None),
        used: true,
        answer_wrote: has_byte(answer.writes.as_slice()),
    })
}

fn step_known(state: &mut State, insn: &KeptInsn, next: Option<&Entry>) -> Result<StepFacts, Stop>
    ensures told { OfSpelling insn.now.bytes (λ f. Tells (fields_in f) next.entry state.old result) }
    ensures moved { OfSpelling insn.now.bytes
        (λ f. Moves (fields_in f) next.entry state.old state.new) }
    ensures extents { extents state.new.mem ≡ extents state.old.mem }
{
    let after = state.rip.wrapping_add(insn.bytes.len() as u64);
    match insn.form {
        Insn::Exact(op) => step_exact(state, op, insn, after, next),
        Insn::Asked(form) => step_asked(state, form, insn, after, next),
        Insn::Ending => Err(Stop::Ending { addr: state.rip }),
    }
}

/// A step of the instruction with which the code at the instruction pointer begins.
fn step_read(state: &mut State, insn: &KeptInsn, next: Option<&Entry>) -> Result<StepFacts, Stop>
    requires { IsFront insn.now.bytes (code_at (cell_at state.old.mem) state.old.rip 15) }
    ensures told { Tells judged_in next.entry state.old result }
    ensures moved { Moves judged_in next.entry state.old state.new }
    ensures extents { extents state.new.mem ≡ extents state.old.mem }
{
    step_known(state, insn, next)
}

/// The instruction with which the code at an address begins, or why it begins with none that can be stepped.
fn read_insn(code: &[u8], rip: u64) -> Result<KeptInsn, Stop>
    ensures unread { IfErr result (λ stop. IsUnread code.now rip stop) }
    ensures front { IfOk result (λ insn. IsFront insn.bytes code.now) }
{
    if code.is_empty() {
        return Err(Stop::NoByte { addr: rip });
    }
    match decode(code) {
        Shape::Unknown => Err(Stop::UnknownInsn { addr: rip }),
        Shape::Short => Err(Stop::NoByte {
            addr: rip.wrapping_add(code.len() as u64),
        }),
        Shape::Known(parts) => {
            let bytes = &code[..usize::from(parts.len)];
            Ok(KeptInsn {
                bytes: ByteList::from_slice(bytes),
                parts,
                form: classify(&parts, bytes),
            })
        }
    }
}

fn advance(state: &mut State, next: Option<&Entry>) -> Result<StepFacts, Stop>
    ensures told { Tells judged_in next.entry state.old result }
    ensures moved { Moves judged_in next.entry state.old state.new }
    ensures extents { extents state.new.mem ≡ extents state.old.mem }
{
    let code = state.fetch();
    match read_insn(code.as_slice(), state.rip) {
        Ok(insn) => step_read(state, &insn, next),
        Err(stop) => Err(stop),
    }
}

/// The same, where instructions that were read are kept, by a copy of the code.
#[inline(never)]
fn advance_fetched(
    state: &mut State,
    kept: &mut KeptInsns,
    next: Option<&Entry>,
) -> Result<StepFacts, Stop>
    ensures told { Tells judged_in next.entry state.old result }
    ensures moved { Moves judged_in next.entry state.old state.new }
    ensures extents { extents state.new.mem ≡ extents state.old.mem }
{
    let rip = state.rip;
    let code = state.fetch();
    if let Some(insn) = kept.find(rip, code.as_slice()) {
        return step_read(state, insn, next);
    }
    match read_insn(code.as_slice(), rip) {
        Ok(insn) => {
            let result = step_read(state, &insn, next);
            kept.keep(rip, insn);
            result
        }
        Err(stop) => Err(stop),
    }
}

/// The instruction that is kept for the code at the instruction pointer, which is looked at where it lies.
fn kept_in_place<'a>(state: &State, kept: &'a KeptInsns) -> Option<&'a KeptInsn>
    ensures { IfSome result (λ insn. IsFront insn.now.bytes
        (code_at (cell_at state.now.mem) state.now.rip 15)) }
{
    let code = state.mem.whole_code(state.rip)?;
    kept.find(state.rip, code)
}

/// The same, where no code is copied if the instruction is kept.
fn advance_kept(
    state: &mut State,
    kept: &mut KeptInsns,
    next: Option<&Entry>,
) -> Result<StepFacts, Stop>
    ensures told { Tells judged_in next.entry state.old result }
    ensures moved { Moves judged_in next.entry state.old state.new }
    ensures extents { extents state.new.mem ≡ extents state.old.mem }
{
    if let Some(insn) = kept_in_place(state, kept) {
        return step_read(state, insn, next);
    }
    advance_fetched(state, kept, next)
}

/// One step of the instruction at the instruction pointer. `next` is the world's next entry.
///
/// The checks come in this order: a byte to execute; an instruction; that it doesn't end the run. An instruction of known
/// work then needs its read, its write and, where flags are undefined, the world's entry. One that the world answers needs
/// the world's entry, and then the answer's writes. After a stop the state is as it was.
pub fn step(state: &mut State, next: Option<&Entry>) -> Result<StepInfo, Stop>
    ensures told { result ≡ told (judged_in state.old (option_copied next.entry)) }
    ensures steps { Steps (option_copied next.entry) state.old state.new result }
    ensures touches { Touches (option_copied next.entry) state.old state.new result }
    ensures uses { Uses (option_copied next.entry) state.old state.new result }
    ensures extents { extents state.new.mem ≡ extents state.old.mem }
    ensures unchanged { IfErr result (λ e. state.new ≡ state.old) }
{
    with_lists(advance(state, next))
}

/// The same step, where instructions that were read are kept for the next steps at their addresses.
pub fn step_kept(
    state: &mut State,
    kept: &mut KeptInsns,
    next: Option<&Entry>,
) -> Result<StepFacts, Stop>
    ensures told { told_info result ≡ told (judged_in state.old (option_copied next.entry)) }
    ensures steps { Steps (option_copied next.entry) state.old state.new (told_info result) }
    ensures touches { Touches (option_copied next.entry) state.old state.new (told_info result) }
    ensures uses { Uses (option_copied next.entry) state.old state.new (told_info result) }
    ensures extents { extents state.new.mem ≡ extents state.old.mem }
    ensures unchanged { IfErr result (λ e. state.new ≡ state.old) }
{
    advance_kept(state, kept, next)
}
