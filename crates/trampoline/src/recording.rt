//! The code of events.
ghost use Rattle.std.specs.Prelude.{◌≡◌, ◌+◌, ◌≤◌, ◌<◌, ◌++◌, length};
ghost use Rattle.pun_base.specs.declared.action.Action.TheVariants.{Cover, Count};
ghost use Rattle.pun_base.specs.Limits.{most_sites};
ghost use Rattle.trampoline.specs.Events.{ring_code, event_code};
ghost use Rattle.trampoline.specs.Running.{IsEvent};

use crate::event::Event;
use cond_action::{marked_datum, put_when};
use event_steps::put_steps;
use event_steps::step::{Datum, EventStep, Place};
use pun_base::action::{Action, Base};
use pun_base::limits::{DATA_AT, SLOT_LEN};
use relocate_insn::writer::CodeWriter;

/// Writes a store of 1 into the site's byte.
fn put_cover(code: &mut CodeWriter, number: u32, private: u32)
    requires room { length code.old ≤ 60 }
    requires number { number < most_sites }
    requires private { private < 0x7FFF0000 }
    ensures { code.new ≡ code.old ++ event_code Cover private number }
{
    let data = [marked_datum(Base::Cover, private, number)];
    put_steps(code, &data, &[EventStep::Cover(0)]);
}

/// Writes what adds 1 to the site's counter of eight bytes. No flag changes, and rax is kept in the first eight bytes of the private range.
fn put_count(code: &mut CodeWriter, number: u32, private: u32)
    requires room { length code.old ≤ 60 }
    requires number { number < most_sites }
    requires private { private < 0x7FFF0000 }
    ensures { code.new ≡ code.old ++ event_code Count private number }
{
    let data = [
        Datum::at(private, 8),
        marked_datum(Base::Count, private, number),
    ];
    let steps = [
        EventStep::Store(0),
        EventStep::Load(1),
        EventStep::Raise,
        EventStep::Store(1),
        EventStep::Load(0),
    ];
    put_steps(code, &data, &steps);
}

/// Writes what puts the site's number, counted from 1, into the slot at the ring's position, and moves the position on.
fn put_ring(code: &mut CodeWriter, number: u32, private: u32, len: u32)
    requires room { length code.old ≤ 48 }
    requires number { number < most_sites }
    requires private { private < 0x7FFF0000 }
    requires len { len ≤ 65536 }
    ensures { code.new ≡ code.old ++ ring_code private number len }
{
    let data = [
        Datum::at(private, 8),
        Datum::at(private + 8, 4),
        Datum::at(private + DATA_AT, 4),
        Datum {
            place: Place::At(private + (DATA_AT + SLOT_LEN)),
            size: SLOT_LEN * len,
            number: false,
        },
    ];
    let steps = [
        EventStep::Store(0),
        EventStep::IntoAh,
        EventStep::IntoAl,
        EventStep::StoreLow(1),
        EventStep::LoadLow(2),
        EventStep::Put(3, number + 1),
        EventStep::NextLow,
        EventStep::CompareLow(len),
        EventStep::SkipIf(5, 1),
        EventStep::SetLow(0),
        EventStep::StoreLow(2),
        EventStep::LoadLow(1),
        EventStep::FromAl,
        EventStep::FromAh,
        EventStep::Load(0),
    ];
    put_steps(code, &data, &steps);
}

/// Writes the code of an event.
pub(crate) fn put_event(code: &mut CodeWriter, event: Event, private: u32)
    requires room { length code.old ≤ 48 }
    requires event { IsEvent event }
    requires private { private < 0x7FFF0000 }
    ensures { code.new ≡ code.old ++ event_code event.action private event.number }
{
    match event.action {
        Action::Cover => put_cover(code, event.number, private),
        Action::Count => put_count(code, event.number, private),
        Action::Ring { len } => put_ring(code, event.number, private, len),
        Action::When { base, list } => put_when(code, base, list, event.number, private),
    }
}
