//! The code of events.
ghost use Rattle.std.specs.Prelude.{◌≡◌, ◌+◌, ◌≤◌, ◌<◌, ◌++◌, ◌∷◌, true, length, take};
ghost use Rattle.std.specs.List.{list_all};
ghost use Rattle.length_decode.specs.Spelling.{spelling};
ghost use Rattle.relocate_insn.specs.Pieces.{four};
ghost use Rattle.event_steps.specs.EventSteps as lists;

use crate::step::{Datum, EventStep, Place};
use relocate_insn::writer::CodeWriter;

/// How many bytes a step has.
fn step_size(step: EventStep) -> u8
    ensures value { result ≡ lists.size step }
    ensures few { result ≤ 12 }
{
    match step {
        EventStep::IntoAh | EventStep::FromAh => 1,
        EventStep::FromAl | EventStep::SkipIf(..) => 2,
        EventStep::Keep(_)
        | EventStep::Give(_)
        | EventStep::NextLow
        | EventStep::Reduce(_)
        | EventStep::IntoAl => 3,
        EventStep::Raise => 4,
        EventStep::SetLow(_) | EventStep::CompareLow(_) => 5,
        EventStep::StoreLow(_) | EventStep::LoadLow(_) | EventStep::Compare(..) => 7,
        EventStep::Cover(_)
        | EventStep::CountUp(false, _)
        | EventStep::Store(_)
        | EventStep::Load(_) => 8,
        EventStep::CountUp(true, _) | EventStep::Claim(_) => 9,
        EventStep::Put(..) => 11,
        EventStep::CompareAt(..) => 12,
    }
}

/// How many bytes the first steps have, so many as are asked for.
fn size_of_first(steps: &[EventStep], count: u8) -> u8
    requires { lists.long steps.now ≤ 128 }
    ensures value { result ≡ lists.long (take count steps.now) }
    ensures few { result ≤ lists.long steps.now }
{
    match steps.split_first() {
        Some((first, rest)) if count > 0 => step_size(*first) + size_of_first(rest, count - 1),
        _ => 0,
    }
}

/// Over how many bytes a step in front of others may jump.
fn bytes_over(step: EventStep, rest: &[EventStep]) -> u8
    requires { lists.long rest.now ≤ 128 }
    ensures { result ≡ lists.over step rest.now }
{
    match step {
        EventStep::SkipIf(_, count) => size_of_first(rest, count),
        _ => 0,
    }
}

/// The place of the datum that a step names, if it names one.
fn place_in(uses: &[Datum], step: EventStep) -> Place
    ensures { result ≡ lists.place_in uses.now step }
{
    let named = match step {
        EventStep::Cover(k)
        | EventStep::CountUp(_, k)
        | EventStep::Store(k)
        | EventStep::Load(k)
        | EventStep::StoreLow(k)
        | EventStep::LoadLow(k)
        | EventStep::Put(k, _)
        | EventStep::Claim(k)
        | EventStep::CompareAt(k, _) => k,
        _ => 0,
    };
    datum_place(uses, named)
}

/// The place of the datum of a number, and 0 where there is none.
fn datum_place(uses: &[Datum], named: u8) -> Place
    ensures { result ≡ (lists.datum uses.now named).place }
{
    match uses.split_first() {
        None => Place::At(0),
        Some((first, _)) if named == 0 => first.place,
        Some((_, rest)) => datum_place(rest, named - 1),
    }
}

/// The ModRM byte of an operand at a place, with 0 as its register.
fn modrm(place: Place) -> u8
    ensures value { result ≡ lists.modrm_of place }
    ensures few { result ≤ 0x84 }
{
    match place {
        Place::At(_) => 0x04,
        Place::Below(_) => 0x84,
    }
}

/// The SIB byte of an operand at a place.
fn sib(place: Place) -> u8
    ensures { result ≡ lists.sib_of place }
{
    match place {
        Place::At(_) => 0x25,
        Place::Below(_) => 0x24,
    }
}

/// The displacement of an operand at a place.
fn displacement(place: Place) -> u32
    ensures { four result ≡ lists.disp_of place }
{
    match place {
        Place::At(addr) => addr,
        Place::Below(distance) => distance.wrapping_neg(),
    }
}

/// Writes an opcode with its prefixes, an operand at a place, and an immediate.
fn put_operand(code: &mut CodeWriter, opcode: &[u8], reg: u8, place: Place, immediate: &[u8])
    requires room { length code.old + length opcode.now + 6 + length immediate.now ≤ 128 }
    requires reg { reg ≤ 0x38 }
    ensures { code.new ≡ code.old ++ (opcode.now ++ ((reg + lists.modrm_of place) ∷ lists.sib_of place ∷ (lists.disp_of place ++ immediate.now))) }
{
    code.put(opcode);
    code.put(&[reg + modrm(place), sib(place)]);
    code.put_address(displacement(place));
    code.put(immediate);
}

/// Writes an opcode with its prefixes and what follows, and a number.
fn put_number(code: &mut CodeWriter, opcode: &[u8], number: u32)
    requires { length code.old + length opcode.now + 4 ≤ 128 }
    ensures { code.new ≡ code.old ++ (opcode.now ++ four number) }
{
    code.put(opcode);
    code.put_address(number);
}

/// Writes the element of an array at a place whose number is in rax.
fn put_element(code: &mut CodeWriter, place: Place, number: u32)
    requires { length code.old + 11 ≤ 128 }
    ensures { code.new ≡ code.old ++ (0xC7 ∷ 0x04 ∷ 0x85 ∷ (lists.disp_of place ++ four number)) }
{
    code.put(&[0xC7, 0x04, 0x85]);
    code.put_address(displacement(place));
    code.put_address(number);
}

/// Writes a step whose datum lies at a place, and that may jump over so many bytes.
fn put_step(code: &mut CodeWriter, step: EventStep, place: Place, over: u8)
    requires room { length code.old + lists.size step ≤ 128 }
    requires condition { lists.has_condition step ≡ true }
    ensures written { code.new ≡ code.old ++ spelling (lists.fields_of step place over) }
    ensures size { length code.new ≡ length code.old + lists.size step }
{
    match step {
        EventStep::Cover(_) => put_operand(code, &[0xC6], 0, place, &[1]),
        EventStep::CountUp(true, _) => put_operand(code, &[0xF0, 0x48, 0xFF], 0, place, &[]),
        EventStep::CountUp(false, _) => put_operand(code, &[0x48, 0xFF], 0, place, &[]),
        EventStep::Store(_) => put_operand(code, &[0x48, 0x89], 0, place, &[]),
        EventStep::Load(_) => put_operand(code, &[0x48, 0x8B], 0, place, &[]),
        EventStep::StoreLow(_) => put_operand(code, &[0x89], 0, place, &[]),
        EventStep::LoadLow(_) => put_operand(code, &[0x8B], 0, place, &[]),
        EventStep::Keep(r) => code.put(&[if r < 8 { 0x48 } else { 0x49 }, 0x89, 0xC0 + r % 8]),
        EventStep::Give(r) => {
            code.put(&[if r < 8 { 0x48 } else { 0x4C }, 0x89, 0xC0 + 8 * (r % 8)])
        }
        EventStep::Raise => code.put(&[0x48, 0x8D, 0x40, 0x01]),
        EventStep::SetLow(n) => put_number(code, &[0xB8], n),
        EventStep::NextLow => code.put(&[0x8D, 0x40, 0x01]),
        EventStep::CompareLow(n) => put_number(code, &[0x3D], n),
        EventStep::Reduce(true) => code.put(&[0x0F, 0xB7, 0xC0]),
        EventStep::Reduce(false) => code.put(&[0x0F, 0xB6, 0xC0]),
        EventStep::Put(_, n) => put_element(code, place, n),
        EventStep::Claim(_) => put_operand(code, &[0xF0, 0x0F, 0xC1], 0, place, &[]),
        EventStep::IntoAh => code.put(&[0x9F]),
        EventStep::IntoAl => code.put(&[0x0F, 0x90, 0xC0]),
        EventStep::FromAl => code.put(&[0x04, 0x7F]),
        EventStep::FromAh => code.put(&[0x9E]),
        EventStep::Compare(r, n) => put_number(
            code,
            &[if r < 8 { 0x48 } else { 0x49 }, 0x81, 0xF8 + r % 8],
            n,
        ),
        EventStep::CompareAt(_, n) => {
            put_operand(code, &[0x48, 0x81], 0x38, place, &n.to_le_bytes())
        }
        EventStep::SkipIf(cc, _) => code.put(&[0x70 + cc, over]),
    }
}

/// Writes the code of steps over data.
pub fn put_steps(code: &mut CodeWriter, uses: &[Datum], steps: &[EventStep])
    requires room { length code.old + lists.long steps.now ≤ 128 }
    requires conditions { list_all lists.has_condition steps.now ≡ true }
    ensures { code.new ≡ code.old ++ lists.code uses.now steps.now }
{
    if let Some((first, rest)) = steps.split_first() {
        put_step(
            code,
            *first,
            place_in(uses, *first),
            bytes_over(*first, rest),
        );
        put_steps(code, uses, rest);
    }
}
