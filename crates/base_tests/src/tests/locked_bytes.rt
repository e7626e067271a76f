use byte_locks::lock::Lock;
use byte_locks::locks::Locks;
use std::test::Fail;

/// Addresses, and what a padded jump leaves there.
const PADDED: [(u32, Lock); 7] = [
    (0x400FFF, Lock::Free),
    (0x401000, Lock::Changed(0x40)),
    (0x401001, Lock::Changed(0xE9)),
    (0x401002, Lock::Punned),
    (0x401003, Lock::Free),
    (0, Lock::Free),
    (0xFFFFFFFF, Lock::Free),
];

#[test]
fn locks_of_a_padded_jump(rt: HostRuntime) -> Result<(), Fail> {
    let mut locks = Locks::new(rt.alloc());
    locks.reserve(rt.alloc(), 4)?;
    locks.change(0x401000, 0x40);
    locks.change(0x401001, 0xE9);
    locks.pun(0x401002);
    // A jump that reads a byte of an earlier jump leaves it as it stands.
    locks.pun(0x401001);
    for &(addr, lock) in &PADDED {
        assert_eq!(rt; locks.at(addr), lock);
        assert_eq!(rt; locks.is_free(addr), lock == Lock::Free);
    }
    locks.reserve(rt.alloc(), 1)?;
    assert_eq!(rt; locks.at(0x401001), Lock::Changed(0xE9));
    Ok(())
}

/// Addresses on both sides of page borders, and what is left there.
const ACROSS_PAGES: [(u32, Lock); 13] = [
    (0, Lock::Changed(0x0F)),
    (1, Lock::Free),
    (0xFFF, Lock::Free),
    (0x1000, Lock::Free),
    (0x400FFF, Lock::Free),
    (0x401FFE, Lock::Free),
    (0x401FFF, Lock::Changed(0x40)),
    (0x402000, Lock::Changed(0xE9)),
    (0x402001, Lock::Punned),
    (0x402002, Lock::Free),
    (0x403000, Lock::Free),
    (0xFFFFFFFE, Lock::Free),
    (0xFFFFFFFF, Lock::Punned),
];

#[test]
fn locks_on_both_sides_of_page_borders(rt: HostRuntime) -> Result<(), Fail> {
    let mut locks = Locks::new(rt.alloc());
    locks.reserve(rt.alloc(), 5)?;
    // The last page comes first, then the lowest, and then two between them.
    locks.pun(0xFFFFFFFF);
    locks.change(0, 0x0F);
    locks.change(0x402000, 0xE9);
    locks.change(0x401FFF, 0x40);
    locks.pun(0x402001);
    for &(addr, lock) in &ACROSS_PAGES {
        assert_eq!(rt; locks.at(addr), lock);
        assert_eq!(rt; locks.is_free(addr), lock == Lock::Free);
    }
    Ok(())
}
