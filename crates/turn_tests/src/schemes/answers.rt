//! What the schemes answer at a turn, and the words of an answer.
ghost use Rattle.std.specs.Prelude.{◌≡◌, ℕ, ◌+◌, ◌<◌, IsTrue};
ghost use Rattle.byte_locks.specs.Locking.{lock_at};
ghost use Rattle.byte_locks.specs.declared.lock.Lock.TheVariants.{Free};

use super::given::Given;
use byte_locks::locks::Locks;
use elf_read::elf::read_written;
use pun_base::outcome::Plan;
use scheme_near::find::find_t3;
use scheme_pad::find::find_t1;
use scheme_pun::find::{find_b1, find_b2};
use scheme_succ::find::find_t2;
use start_list::entry::StartEntry;
use start_list::starts::{Starts, ascend};
use start_list::turn::Turn;
use std::alloc::Global;

/// The most bytes of an event's code.
const MOST_EVENT: u32 = 80;

/// Whether each byte of an instruction may be written.
fn is_free(locks: &Locks, site: &StartEntry) -> bool
    ensures { IsTrue result → (k : ℕ) → k < site.now.len
        → lock_at locks.now (site.now.addr + k) ≡ Free }
{
    let Some(end) = site.addr.checked_add(u32::from(site.len)) else {
        return false;
    };
    for addr in site.addr..end {
        if !locks.is_free(addr) {
            return false;
        }
    }
    true
}

/// A digit for each start, which is 1 where its instruction shares bytes with another listed one; nothing where what is given has no
/// starts.
pub fn marks(alloc: Global, given: &Given) -> Option<String> {
    let elf = read_written(alloc, &given.file).ok()?;
    if !ascend(&given.starts) {
        return None;
    }
    let Ok(starts) = Starts::build(alloc, &elf, &given.starts) else {
        return None;
    };
    let mut text = String::new(alloc);
    for entry in starts.entries() {
        text.push(if entry.shared { '1' } else { '0' }).ok()?;
    }
    Some(text)
}

/// The plans of the five schemes for the site; nothing where what is given makes no turn, or the site shares bytes.
///
/// The file is read as one that begins at 0x10000 at the lowest, so that a site may lie below the space.
pub fn planned(alloc: Global, given: &Given) -> Option<[Option<Plan>; 5]> {
    let elf = read_written(alloc, &given.file).ok()?;
    if !ascend(&given.starts) {
        return None;
    }
    let Ok(starts) = Starts::build(alloc, &elf, &given.starts) else {
        return None;
    };
    let turn = Turn {
        elf: &elf,
        starts: &starts,
        locks: &given.locks,
        space: &given.space,
        event_size: given.event_size,
        threads: given.threads,
    };
    let entries = starts.entries();
    if given.place < entries.len()
        && turn.is_movable(&entries[given.place])
        && !entries[given.place].shared
        && is_free(&given.locks, &entries[given.place])
        && given.event_size <= MOST_EVENT
    {
        let site = &entries[given.place];
        Some([
            find_b1(&turn, site),
            find_b2(&turn, site),
            find_t1(&turn, site),
            find_t2(&turn, site),
            find_t3(&turn, site),
        ])
    } else {
        None
    }
}

/// The scheme, the place of the trampoline with the event and the place and start of one without, each write's address and bytes before
/// and after it, and each run of punned bytes; `-` where there is no plan.
pub fn spelled(alloc: Global, plan: &Option<Plan>) -> Option<String> {
    let Some(plan) = plan else {
        return String::from_str(alloc, "-").ok();
    };
    let mut text = format!(in alloc; "{:?}", plan.scheme).ok()?;
    for tramp in plan.tramps.as_slice() {
        if tramp.event {
            write!(text, ":{:08x}", tramp.place).ok()?;
        } else {
            write!(text, ":{:08x}/{:08x}", tramp.place, tramp.start).ok()?;
        }
    }
    for write in plan.writes.as_slice() {
        let was = hex::encode(alloc, write.was.as_slice()).ok()?;
        let now = hex::encode(alloc, write.now.as_slice()).ok()?;
        write!(text, ":{:08x}:{was}:{now}", write.addr).ok()?;
    }
    for pun in plan.puns.as_slice() {
        let bytes = hex::encode(alloc, pun.bytes.as_slice()).ok()?;
        write!(text, ":{:08x}:{bytes}", pun.addr).ok()?;
    }
    Some(text)
}
