//! Locks the bytes of a plan.
ghost use Rattle.std.specs.Prelude.{◌≡◌, ℕ, ◌+◌, ◌*◌, ◌<◌, ◌≤◌, ◌^◌, true, length, map};
ghost use Rattle.byte_locks.specs.declared.lock.Lock.TheVariants.{Free};
ghost use Rattle.byte_locks.specs.Locking.{lock_at};
ghost use Rattle.start_list.specs.Plans.{write_run, pun_run, Ascend};
ghost use Rattle.site_turns.specs.LockedRuns.{is_in_runs, changed_from, punned_from, runs_changed, runs_punned};

use byte_locks::locks::Locks;
use pun_base::plan::Write;
use pun_base::pun::Pun;

/// Changes the bytes from an address on to these values.
fn change_bytes(locks: &mut Locks, addr: u32, values: &[u8])
    requires free { (k : ℕ) → k < length values.now → lock_at locks.old (addr + k) ≡ Free }
    requires low { addr + length values.now < 2 ^ 32 }
    requires spare { length values.now ≤ locks.old.spare }
    ensures locks { lock_at locks.new ≡ changed_from addr values.now (lock_at locks.old) }
    ensures spare { locks.old.spare ≤ locks.new.spare + length values.now }
{
    let mut next = addr;
    for value in values {
        locks.change(next, *value);
        next += 1;
    }
}

/// Puns as many bytes from an address on as `bytes` has.
fn pun_bytes(locks: &mut Locks, addr: u32, bytes: &[u8])
    requires low { addr + length bytes.now < 2 ^ 32 }
    requires spare { length bytes.now ≤ locks.old.spare }
    ensures locks { lock_at locks.new ≡ punned_from addr bytes.now (lock_at locks.old) }
    ensures spare { locks.old.spare ≤ locks.new.spare + length bytes.now }
{
    let mut next = addr;
    for _byte in bytes {
        locks.pun(next);
        next += 1;
    }
}

/// Changes the bytes of runs.
pub(crate) fn change_runs(locks: &mut Locks, writes: &[Write])
    requires ascend { Ascend (map write_run writes.now) }
    requires free { (a : ℕ) → is_in_runs (map write_run writes.now) a ≡ true
        → lock_at locks.old a ≡ Free }
    requires low { (a : ℕ) → is_in_runs (map write_run writes.now) a ≡ true → a < 2 ^ 31 }
    requires spare { 16 * length writes.now ≤ locks.old.spare }
    ensures locks { lock_at locks.new ≡ runs_changed writes.now (lock_at locks.old) }
    ensures spare { locks.old.spare ≤ locks.new.spare + 16 * length writes.now }
{
    for write in writes {
        change_bytes(locks, write.addr, write.now.as_slice());
    }
}

/// Puns the bytes of runs.
pub(crate) fn pun_runs(locks: &mut Locks, puns: &[Pun])
    requires ascend { Ascend (map pun_run puns.now) }
    requires low { (a : ℕ) → is_in_runs (map pun_run puns.now) a ≡ true → a < 2 ^ 31 }
    requires spare { 16 * length puns.now ≤ locks.old.spare }
    ensures { lock_at locks.new ≡ runs_punned puns.now (lock_at locks.old) }
{
    for pun in puns {
        pun_bytes(locks, pun.addr, pun.bytes.as_slice());
    }
}
