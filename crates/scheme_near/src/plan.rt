//! The plan of a short jump into a victim that has two jumps.
ghost use Rattle.std.specs.Prelude.{◌≡◌, ◌+◌, ◌<◌, ◌≤◌, ◌-◌, min, [], ◌∷◌, ◌++◌, take, length};
ghost use Rattle.insn_form.specs.Moved.{rel_bytes};
ghost use Rattle.start_list.specs.Plans.{IsPlanOf};
ghost use Rattle.start_list.specs.Turning.{view_of};
ghost use Rattle.scheme_near.specs.Choices.{IsGood, candidate};
ghost use Rattle.scheme_near.specs.Written.{IsReady, IsWritten, short_jump_bytes, outer_jump_bytes, inner_jump_bytes};

use crate::choice::{Choice, SHORT_JUMP_LEN, written_len};
use arrayvec::ArrayVec;
use jump_form::jump::spell;
use pun_base::byte_list::ByteList;
use pun_base::limits::JUMP_LEN;
use pun_base::outcome::Plan;
use pun_base::plan::Write;
use pun_base::plan_lists::WriteList;
use pun_base::scheme::Scheme;
use scheme_search::pieces::{puns_behind, two_tramps, write_of};
use scheme_search::plan::PAD;
use scheme_search::site_turn::SiteTurn;
use start_entries::entry::StartEntry;

/// The opcode of `jmp rel8` (Intel SDM, volume 2, JMP).
const JMP_REL8: u8 = 0xEB;

/// One list of bytes after the other.
fn joined(first: &[u8], second: &[u8]) -> ByteList
    requires { length first.now + length second.now ≤ 16 }
    ensures value { result ≡ first.now ++ second.now }
    ensures length { length result ≡ length first.now + length second.now }
{
    let mut bytes: ArrayVec<u8, 16> = ArrayVec::new();
    bytes.try_extend_from_slice(first).unwrap();
    bytes.try_extend_from_slice(second).unwrap();
    ByteList::from_slice(bytes.as_slice())
}

/// The bytes of the site's short jump.
fn short_bytes(site: &StartEntry, choice: &Choice) -> [u8; 2]
    requires above { site.now.addr + 2 ≤ choice.now.victim.addr }
    requires near { choice.now.victim.addr + choice.now.offset ≤ site.now.addr + 129 }
    requires low { choice.now.victim.addr + choice.now.offset + 5 ≤ 0x7FFF0000 }
    ensures { result ≡ short_jump_bytes site.now choice.now }
{
    let place = choice.victim.addr + u32::from(choice.offset);
    [
        JMP_REL8,
        (place - (site.addr + SHORT_JUMP_LEN as u32)) as u8,
    ]
}

/// The first `count` bytes of a jump without pads.
fn first_bytes(addr: u32, target: u32, count: u8) -> ByteList
    requires count { count ≤ 5 }
    requires place { addr + 5 ≤ 0x7FFF0000 }
    requires target { target ≤ 0x7FFF0000 }
    ensures value { result ≡ take count (0xE9 ∷ rel_bytes (addr + 5) target) }
    ensures length { length result ≡ count }
{
    let jump = spell(addr, 0, PAD, target);
    ByteList::from_slice(&jump.as_slice()[..usize::from(count)])
}

/// What the victim's own jump writes before the jump inside.
fn outer_bytes(here: &SiteTurn<'_>, choice: &Choice) -> ByteList
    requires { IsReady here.now choice.now }
    ensures value { result ≡ outer_jump_bytes choice.now }
    ensures length { length result ≡ min choice.now.offset 5 }
{
    first_bytes(
        choice.victim.addr,
        choice.pick.second,
        written_len(choice.offset),
    )
}

/// What the jump inside the victim writes.
fn inner_bytes(here: &SiteTurn<'_>, choice: &Choice) -> ByteList
    requires { IsReady here.now choice.now }
    ensures value { result ≡ inner_jump_bytes choice.now }
    ensures length { length result ≡ min (choice.now.victim.len - choice.now.offset) 5 }
{
    let place = choice.victim.addr + u32::from(choice.offset);
    let count = written_len(choice.victim.len - choice.offset);
    first_bytes(place, choice.pick.first, count)
}

/// What the victim's own jump and the jump inside it write, where the first touches the second.
fn victim_bytes(here: &SiteTurn<'_>, choice: &Choice) -> ByteList
    requires { IsReady here.now choice.now }
    ensures value { result ≡ outer_jump_bytes choice.now ++ inner_jump_bytes choice.now }
    ensures length { length result ≡ min choice.now.offset 5
        + min (choice.now.victim.len - choice.now.offset) 5 }
{
    let outer = outer_bytes(here, choice);
    let inner = inner_bytes(here, choice);
    joined(outer.as_slice(), inner.as_slice())
}

/// The list of one write.
fn one_write(first: Write) -> WriteList
    ensures { result ≡ first ∷ [] }
{
    let mut writes = WriteList::new();
    writes.push(first);
    writes
}

fn two_writes(first: Write, second: Write) -> WriteList
    ensures { result ≡ first ∷ second ∷ [] }
{
    let mut writes = one_write(first);
    writes.push(second);
    writes
}

fn three_writes(first: Write, second: Write, third: Write) -> WriteList
    ensures { result ≡ first ∷ second ∷ third ∷ [] }
{
    let mut writes = two_writes(first, second);
    writes.push(third);
    writes
}

/// What is written where the victim begins right after the short jump and its two jumps touch.
fn one_run(here: &SiteTurn<'_>, choice: &Choice) -> WriteList
    requires ready { IsReady here.now choice.now }
    requires touches { here.now.site.addr + 2 ≡ choice.now.victim.addr }
    requires near { choice.now.offset ≤ 5 }
    ensures { IsWritten here.now choice.now result }
{
    let short = short_bytes(&here.site, choice);
    let victim = victim_bytes(here, choice);
    let all = joined(&short, victim.as_slice());
    one_write(write_of(&here.turn, here.site.addr, all.as_slice()))
}

/// What is written where the victim begins right after the short jump and its two jumps don't
/// touch.
fn front_run(here: &SiteTurn<'_>, choice: &Choice) -> WriteList
    requires ready { IsReady here.now choice.now }
    requires touches { here.now.site.addr + 2 ≡ choice.now.victim.addr }
    requires far { 5 < choice.now.offset }
    ensures { IsWritten here.now choice.now result }
{
    let short = short_bytes(&here.site, choice);
    let outer = outer_bytes(here, choice);
    let inner = inner_bytes(here, choice);
    let front = joined(&short, outer.as_slice());
    let place = choice.victim.addr + u32::from(choice.offset);
    let first = write_of(&here.turn, here.site.addr, front.as_slice());
    two_writes(first, write_of(&here.turn, place, inner.as_slice()))
}

/// What is written where the victim begins above the short jump's end and its two jumps touch.
fn back_run(here: &SiteTurn<'_>, choice: &Choice) -> WriteList
    requires ready { IsReady here.now choice.now }
    requires apart { here.now.site.addr + 2 < choice.now.victim.addr }
    requires near { choice.now.offset ≤ 5 }
    ensures { IsWritten here.now choice.now result }
{
    let short = short_bytes(&here.site, choice);
    let victim = victim_bytes(here, choice);
    let first = write_of(&here.turn, here.site.addr, &short);
    two_writes(
        first,
        write_of(&here.turn, choice.victim.addr, victim.as_slice()),
    )
}

/// What is written where no two of the three jumps touch.
fn apart_runs(here: &SiteTurn<'_>, choice: &Choice) -> WriteList
    requires ready { IsReady here.now choice.now }
    requires apart { here.now.site.addr + 2 < choice.now.victim.addr }
    requires far { 5 < choice.now.offset }
    ensures { IsWritten here.now choice.now result }
{
    let short = short_bytes(&here.site, choice);
    let first = write_of(&here.turn, here.site.addr, &short);
    let outer = outer_bytes(here, choice);
    let second = write_of(&here.turn, choice.victim.addr, outer.as_slice());
    let inner = inner_bytes(here, choice);
    let place = choice.victim.addr + u32::from(choice.offset);
    three_writes(first, second, write_of(&here.turn, place, inner.as_slice()))
}

/// What the three jumps write: jumps that touch are written as one run.
fn jump_writes(here: &SiteTurn<'_>, choice: &Choice) -> WriteList
    requires { IsReady here.now choice.now }
    ensures { IsWritten here.now choice.now result }
{
    if here.site.addr + SHORT_JUMP_LEN as u32 == choice.victim.addr {
        if choice.offset <= JUMP_LEN {
            one_run(here, choice)
        } else {
            front_run(here, choice)
        }
    } else if choice.offset <= JUMP_LEN {
        back_run(here, choice)
    } else {
        apart_runs(here, choice)
    }
}

/// The plan of a choice of scheme T3.
pub fn near_plan(here: &SiteTurn<'_>, choice: &Choice) -> Plan
    requires { IsGood (view_of here.now.turn) here.now.site choice.now }
    ensures { IsPlanOf (view_of here.now.turn) here.now.site (candidate choice.now) result }
{
    let victim = &choice.victim;
    Plan {
        scheme: Scheme::T3,
        tramps: two_tramps(&here.site, choice.pick.first, victim, choice.pick.second),
        writes: jump_writes(here, choice),
        puns: puns_behind(&here.turn, victim, choice.offset + JUMP_LEN),
    }
}
