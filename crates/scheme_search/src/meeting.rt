//! Two jumps that meet: the back one stands where the front one's own bytes end, and its first bytes are the front one's high
//! displacement bytes.
ghost use Rattle.std.specs.Prelude.{◌≡◌, ◌⊎◌, ℕ, pos, ◌+ℤ◌, ◌<ℤ◌, ◌≤ℤ◌, ◌+◌, ◌*◌, ◌<◌, ◌≤◌, ◌^◌, [], length};
ghost use Rattle.jump_form.specs.Jumps.{AreBytes};
ghost use Rattle.jump_form.specs.Windows.{lowest_displacement};
ghost use Rattle.scheme_search.specs.Order.{FirstBy};
ghost use Rattle.scheme_search.specs.Shared.{pick_order};
ghost use Rattle.scheme_search.specs.Meetings.{IsMeeting, IsSized, IsFrontWay, IsBackWay, AreWays, IsChosen, MeetsFront, MeetsBack, high_bytes, shared_count};

use crate::shared::{Pick, Way, first_pick};
use address_space::space::Space;
use arrayvec::ArrayVec;
use jump_form::window::{value_count, window};
use pun_base::byte_list::ByteList;
use pun_base::limits::JUMP_LEN;
use std::cmp::min;

/// The opcode of `jmp rel32` (Intel SDM, volume 2, JMP).
const JMP_REL32: u8 = 0xE9;

/// Two jumps that meet. The front one, a `jmp rel32` that ends at `front_next`, has `own`
/// displacement bytes before the back one. The back one has `pads` pads, ends at `back_next`, and
/// may choose `back_own` of its displacement bytes; `fixed` are those that stand after them.
#[derive(Drop)]
pub struct Meeting {
    pub front_next: u32,
    pub own: u8,
    pub back_next: u32,
    pub pads: u8,
    pub pad: u8,
    pub back_own: u8,
    pub fixed: ByteList,
}

/// How many displacement bytes of the back jump are chosen and are displacement bytes of the front jump.
fn shared_bytes(meeting: &Meeting) -> u8
    requires { IsMeeting meeting.now }
    ensures { result ≡ shared_count meeting.now }
{
    let before = meeting.own + meeting.pads + 1;
    min(4u8.saturating_sub(before), meeting.back_own)
}

/// The high displacement bytes of the front jump for the shared value 0.
fn first_high(meeting: &Meeting) -> ByteList
    requires { IsMeeting meeting.now }
    ensures { result ≡ high_bytes meeting.now 0 }
{
    let shared = shared_bytes(meeting);
    let mut bytes: ArrayVec<u8, 16> = ArrayVec::new();
    let pads = [meeting.pad; 4];
    bytes
        .try_extend_from_slice(&pads[..usize::from(meeting.pads)])
        .unwrap();
    bytes.push(JMP_REL32);
    bytes
        .try_extend_from_slice(&[0, 0][..usize::from(shared)])
        .unwrap();
    bytes
        .try_extend_from_slice(meeting.fixed.as_slice())
        .unwrap();
    ByteList::from_slice(&bytes.as_slice()[..usize::from(4 - meeting.own)])
}

/// The lowest target of a jump that ends at `next`, with `own` displacement bytes of its own and
/// then the fixed ones.
fn lowest_target(next: u32, own: u8, fixed: &[u8]) -> i64
    requires next { (5 ≤ next) × (next < 2 ^ 31) }
    requires four { own + length fixed.now ≡ 4 }
    requires small { AreBytes fixed.now }
    ensures { result ≡ pos next +ℤ lowest_displacement [] own fixed.now }
{
    window(next - JUMP_LEN as u32, 0, own, fixed).lo
}

/// The lowest target of the front jump for the shared value 0.
fn front_low(meeting: &Meeting) -> i64
    requires { IsMeeting meeting.now }
    ensures { result ≡ pos meeting.now.front_next
        +ℤ lowest_displacement [] meeting.now.own (high_bytes meeting.now 0) }
{
    let high = first_high(meeting);
    lowest_target(meeting.front_next, meeting.own, high.as_slice())
}

/// The lowest target of the back jump.
fn back_low(meeting: &Meeting) -> i64
    requires { IsMeeting meeting.now }
    ensures { result ≡ pos meeting.now.back_next
        +ℤ lowest_displacement [] meeting.now.back_own meeting.now.fixed }
{
    lowest_target(
        meeting.back_next,
        meeting.back_own,
        meeting.fixed.as_slice(),
    )
}

/// How far the front jump's targets of one shared value lie from those of the next.
fn front_scale(meeting: &Meeting) -> u64
    requires { IsMeeting meeting.now }
    ensures value { 1 ≤ shared_count meeting.now
        → result ≡ 256 ^ (meeting.now.own + meeting.now.pads + 1) }
    ensures some { (1 ≤ result) × (result ≤ 2 ^ 32) }
{
    if shared_bytes(meeting) == 0 {
        1
    } else {
        value_count(meeting.own + meeting.pads + 1)
    }
}

/// The front jump's targets, as far as displacements of greater values don't turn negative.
fn front_way(meeting: &Meeting, size: u32) -> Way
    requires { IsMeeting meeting.now }
    ensures { IsFrontWay meeting.now size (pos 0) result }
{
    Way {
        lo: front_low(meeting),
        scale: front_scale(meeting),
        step: 1,
        width: value_count(meeting.own),
        size,
    }
}

/// The back jump's targets, for code of `size` bytes.
fn back_way(meeting: &Meeting, size: u32) -> Way
    requires { IsMeeting meeting.now }
    ensures { IsBackWay meeting.now size result }
{
    Way {
        lo: back_low(meeting),
        scale: 1,
        step: value_count(shared_bytes(meeting)) as u32,
        width: value_count(meeting.back_own),
        size,
    }
}

/// The first of `count` shared values whose displacement has turned negative, where `lowest`, that
/// of the value 0, isn't negative.
fn turn_of(lowest: i64, scale: u64, count: u64) -> u64
    requires scale { (1 ≤ scale) × (scale ≤ 2 ^ 32) }
    requires lowest { lowest <ℤ pos (2 ^ 31) }
    ensures most { result ≤ count }
    ensures before { (x : ℕ) → x < result
        → (lowest <ℤ pos 0) ⊎ ((lowest +ℤ pos (x * scale)) <ℤ pos (2 ^ 31)) }
    ensures behind { (x : ℕ) → result ≤ x → x < count
        → (pos 0 ≤ℤ lowest) × (pos (2 ^ 31) ≤ℤ (lowest +ℤ pos (x * scale))) }
{
    if lowest < 0 {
        count
    } else {
        let room = 0x8000_0000 - lowest as u64;
        ((room + (scale - 1)) / scale).min(count)
    }
}

/// The front jump's targets where its displacements have turned negative.
fn turned(meeting: &Meeting, way: Way) -> Way
    requires { IsFrontWay meeting.now way.size (pos 0) way }
    ensures way { IsFrontWay meeting.now way.size (pos (2 ^ 32)) result }
    ensures scale { result.scale ≡ way.scale }
{
    Way {
        lo: way.lo - 0x1_0000_0000,
        scale: way.scale,
        step: way.step,
        width: way.width,
        size: way.size,
    }
}

/// The targets of both jumps: the front one's for the first `turn` of `count` shared values, those
/// for the others, whose displacements have turned negative, and the back one's.
#[derive(Clone, Copy)]
struct Ways {
    front: Way,
    turned: Way,
    back: Way,
    turn: u64,
    count: u64,
}

/// The targets of both jumps, for code of these sizes.
fn ways_of(meeting: &Meeting, front: u32, back: u32) -> Ways
    requires meeting { IsMeeting meeting.now }
    requires front { IsSized front }
    requires back { IsSized back }
    ensures { AreWays meeting.now front back result }
{
    let way = front_way(meeting, front);
    let count = value_count(shared_bytes(meeting));
    let turn = turn_of(way.lo - i64::from(meeting.front_next), way.scale, count);
    Ways {
        front: way,
        turned: turned(meeting, way),
        back: back_way(meeting, back),
        turn,
        count,
    }
}

/// The first two places, by the shared value and then by the front jump's place.
pub fn front_first(space: &Space, meeting: &Meeting, front: u32, back: u32) -> Option<Pick>
    requires meeting { IsMeeting meeting.now }
    requires front { IsSized front }
    requires back { IsSized back }
    ensures { FirstBy pick_order
        (IsChosen space.now.taken (MeetsFront meeting.now) front back) result }
{
    let ways = ways_of(meeting, front, back);
    match first_pick(space, ways.front, ways.back, 0, ways.turn) {
        Some(pick) => Some(pick),
        None => first_pick(space, ways.turned, ways.back, ways.turn, ways.count),
    }
}

/// The first two places, by the shared value and then by the back jump's place.
pub fn back_first(space: &Space, meeting: &Meeting, back: u32, front: u32) -> Option<Pick>
    requires meeting { IsMeeting meeting.now }
    requires back { IsSized back }
    requires front { IsSized front }
    ensures { FirstBy pick_order
        (IsChosen space.now.taken (MeetsBack meeting.now) back front) result }
{
    let ways = ways_of(meeting, front, back);
    match first_pick(space, ways.back, ways.front, 0, ways.turn) {
        Some(pick) => Some(pick),
        None => first_pick(space, ways.back, ways.turned, ways.turn, ways.count),
    }
}
