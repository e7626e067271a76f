//! The event under a condition.
ghost use Rattle.std.specs.Prelude.{◌≡◌, ◌+◌, ◌≤◌, ◌<◌, ◌++◌, false, length};
ghost use Rattle.pun_base.specs.Actions.{AreComparisons, listed};
ghost use Rattle.pun_base.specs.Limits.{most_sites};
ghost use Rattle.cond_action.specs.Codes as codes;
ghost use Rattle.cond_action.specs.CondLists as lists;

use crate::comparing::push_checks;
use arrayvec::ArrayVec;
use event_steps::put_steps;
use event_steps::step::{Datum, EventStep};
use pun_base::action::{Base, Comparisons};
use pun_base::limits::{COUNTER_LEN, DATA_AT};
use relocate_insn::writer::CodeWriter;

/// What an event of a base marks: the site's byte, or its counter.
pub fn marked_datum(base: Base, private: u32, number: u32) -> Datum
    requires number { number < most_sites }
    requires private { private < 0x7FFF0000 }
    ensures { result ≡ lists.marked_datum base private number }
{
    match base {
        Base::Cover => Datum::at(private + DATA_AT + number, 1),
        Base::Count => Datum::at(private + DATA_AT + COUNTER_LEN * number, COUNTER_LEN),
    }
}

/// The step that marks the datum of a number: a store of 1, or an increment.
fn marking_step(base: Base, named: u8) -> EventStep
    ensures { result ≡ lists.marking_step base false named }
{
    match base {
        Base::Cover => EventStep::Cover(named),
        Base::Count => EventStep::CountUp(false, named),
    }
}

/// The steps of an event of a base under a condition.
fn cond_steps(base: Base, list: Comparisons) -> ArrayVec<EventStep, 16>
    ensures { result.items ≡ (lists.cond_event base (listed list) 0 0).steps }
{
    let mut steps = ArrayVec::new();
    steps.push(EventStep::Store(0));
    steps.push(EventStep::IntoAh);
    steps.push(EventStep::IntoAl);
    steps.push(EventStep::StoreLow(1));
    steps.push(EventStep::Load(0));
    push_checks(&mut steps, list);
    steps.push(marking_step(base, 2));
    steps.push(EventStep::LoadLow(1));
    steps.push(EventStep::FromAl);
    steps.push(EventStep::FromAh);
    steps.push(EventStep::Load(0));
    steps
}

/// Writes the code of an event of the site of a number, which its base records where all comparisons hold of the registers.
pub fn put_when(code: &mut CodeWriter, base: Base, list: Comparisons, number: u32, private: u32)
    requires room { length code.old ≤ 48 }
    requires list { AreComparisons (listed list) }
    requires number { number < most_sites }
    requires private { private < 0x7FFF0000 }
    ensures { code.new ≡ code.old ++ codes.cond_code base (listed list) private number }
{
    let steps = cond_steps(base, list);
    let data = [
        Datum::at(private, 8),
        Datum::at(private + 8, 4),
        marked_datum(base, private, number),
    ];
    put_steps(code, &data, steps.as_slice());
}

/// The code of an event of the site of a number, which its base records where all comparisons hold of the registers. It runs in at most
/// 16 steps, behind which registers and flags are as before.
///
/// The private range begins at `private`, and its data 64 bytes behind.
pub fn cond_code(base: Base, list: Comparisons, number: u32, private: u32) -> ArrayVec<u8, 80>
    requires list { AreComparisons (listed list) }
    requires number { number < most_sites }
    requires private { private < 0x7FFF0000 }
    ensures { result.items ≡ codes.cond_code base (listed list) private number }
{
    let mut writer = CodeWriter::new();
    put_when(&mut writer, base, list, number, private);
    let code = writer.code(false);
    let mut bytes = ArrayVec::new();
    bytes.try_extend_from_slice(code.bytes.as_slice()).unwrap();
    bytes
}
