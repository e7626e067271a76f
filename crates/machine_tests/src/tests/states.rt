//! Memory, addresses that come round, and the script without content.
use cpu_alu::unpack;
use cpu_state::memory::{AddError, Memory, NoByte};
use cpu_state::page_list::PageList;
use cpu_state::script::Script;
use cpu_state::script_regions::{Region, RegionBody, Regions};
use cpu_state::state::State;
use cpu_state::world::{Answer, Entries, Entry, MemWrite, MemWrites, Question};
use pun_base::byte_list::ByteList;
use std::alloc::{AllocError, Global};
use std::test::Fail;

/// Code at 0x1000, data at 0x2000 with four zeros, constants at 0x3000, and both ends of the addresses.
fn memory(alloc: Global) -> Result<Memory, AddError> {
    let mut memory = Memory::empty(alloc);
    memory.add(alloc, 0x2000, 6, &[1, 2, 3, 4], 4)?;
    memory.add(alloc, 0x3000, 4, &[0xff], 0)?;
    memory.add(alloc, 0x1000, 5, &[0x90, 0xc3], 1)?;
    memory.add(alloc, 0xffff_ffff_ffff_fffe, 6, &[0xaa, 0xbb], 0)?;
    memory.add(alloc, 0, 6, &[0xcc, 0xdd], 0)?;
    Ok(memory)
}

fn state(mem: Memory, rip: u64) -> State {
    State {
        regs: [0; 16],
        rip,
        flags: unpack(2),
        fs: 0,
        gs: 0,
        mem,
    }
}

/// Address, bytes, and the number or the first address without it.
const LOADS: [(u64, u8, Result<u64, NoByte>); 8] = [
    (0x2000, 4, Ok(0x0403_0201)),
    (0x2001, 8, Err(NoByte { addr: 0x2008 })),
    (0x2000, 8, Ok(0x0403_0201)),
    (0x3000, 1, Ok(0xff)),
    (0x3000, 2, Err(NoByte { addr: 0x3001 })),
    (0x1fff, 2, Err(NoByte { addr: 0x1fff })),
    (0xffff_ffff_ffff_fffe, 4, Ok(0xddcc_bbaa)),
    (0xffff_ffff_ffff_ffff, 8, Err(NoByte { addr: 2 })),
];

#[test]
fn loads(rt: HostRuntime) -> Result<(), Fail> {
    let state = state(memory(rt.alloc())?, 0);
    for &(addr, size, expected) in &LOADS {
        assert!(rt; state.load(addr, size) == expected, "at {addr:x}");
    }
    Ok(())
}

#[test]
fn stores(rt: HostRuntime) -> Result<(), Fail> {
    let mut state = state(memory(rt.alloc())?, 0);
    assert!(rt; state.store(0x2002, 2, 0xdead_beef) == Ok(()));
    assert!(rt; state.load(0x2000, 8) == Ok(0xbeef_0201));
    assert!(rt; state.store(0x3000, 1, 0) == Err(NoByte { addr: 0x3000 }));
    assert!(rt; state.load(0x3000, 1) == Ok(0xff));
    assert!(rt; state.store(0x2006, 4, 0x1122_3344) == Err(NoByte { addr: 0x2008 }));
    assert!(rt; state.load(0x2000, 8) == Ok(0xbeef_0201));
    assert!(rt; state.store(0xffff_ffff_ffff_ffff, 2, 0x1122) == Ok(()));
    assert!(rt; state.load(0xffff_ffff_ffff_fffe, 4) == Ok(0xdd11_22aa));
    Ok(())
}

#[test]
fn fetches(rt: HostRuntime) -> Result<(), Fail> {
    let code = state(memory(rt.alloc())?, 0x1000);
    assert_eq!(rt; code.fetch().as_slice(), [0x90, 0xc3, 0].as_slice());
    let data = state(memory(rt.alloc())?, 0x2000);
    assert!(rt; data.fetch().is_empty());
    Ok(())
}

/// Beginning, zeros, and the least beginning of the regions that are met.
const MET: [(u64, u64, u64); 6] = [
    (0x2007, 1, 0x2000),
    (0x1fff, 2, 0x2000),
    (0xfff, 0x2002, 0x1000),
    (0x1002, 0x2000, 0x1000),
    (0x2008, 0x1000, 0x3000),
    (1, 0xffff_ffff_ffff_ffff, 0),
];

#[test]
fn regions_meet(rt: HostRuntime) -> Result<(), Fail> {
    let mut memory = memory(rt.alloc())?;
    for &(lo, zeros, least) in &MET {
        assert!(rt;
            memory.add(rt.alloc(), lo, 6, &[], zeros) == Err(AddError::Meets { lo: least }),
            "at {lo:x}"
        );
    }
    assert!(rt; memory.add(rt.alloc(), 0x1003, 6, &[7], 0xffc) == Ok(()));
    assert!(rt; memory.load(0x1ffe, 4) == Ok(0x0201_0000));
    assert!(rt; memory.lacking(1, 0x1001, 3) == Some(0x1003));
    memory.write(0x1fff, &[5, 6]);
    assert!(rt; memory.load(0x1ffe, 4) == Ok(0x0206_0500));
    Ok(())
}

/// A list of one write of two bytes.
fn two_bytes_written(alloc: Global) -> Result<MemWrites, AllocError> {
    let bytes = PageList::from_vec(vec![in alloc; 1, 2]?);
    Ok(MemWrites::from_vec(vec![in alloc; MemWrite { addr: 9, bytes }]?))
}

#[test]
fn writes_give_back_what_they_hold(rt: HostRuntime) -> Result<(), Fail> {
    let writes = two_bytes_written(rt.alloc())?;
    assert_eq!(rt; writes.as_slice().len(), 1);
    let write = writes.into_vec().pop().expect(&rt, "a write");
    assert_eq!(rt; write.bytes.as_slice(), [1, 2].as_slice());
    assert_eq!(rt; write.bytes.into_vec().as_slice(), [1, 2].as_slice());
    Ok(())
}

#[test]
fn entries_give_back_what_they_hold(rt: HostRuntime) -> Result<(), Fail> {
    let alloc = rt.alloc();
    let question = Question {
        bytes: ByteList::from_slice(&[0x0f, 0x05]),
        addr: None,
    };
    let answer = Answer {
        regs: [None; 16],
        flags: None,
        fs: None,
        gs: None,
        writes: two_bytes_written(alloc)?,
    };
    let entries = Entries::from_vec(vec![in alloc; Entry { question, answer }]?);
    assert_eq!(rt; entries.as_slice().len(), 1);
    let entry = entries.into_vec().pop().expect(&rt, "an entry");
    assert_eq!(rt; entry.answer.writes.as_slice().len(), 1);
    let write = entry.answer.writes.into_vec().pop().expect(&rt, "a write");
    assert_eq!(rt; write.bytes.as_slice(), [1, 2].as_slice());
    Ok(())
}

#[test]
fn regions_give_back_what_they_hold(rt: HostRuntime) -> Result<(), Fail> {
    let regions = Regions::from_vec(vec![in rt.alloc();
        Region {
            lo: 0,
            perms: 4,
            body: RegionBody::Zeros(1)
        },
    ]?);
    assert_eq!(rt; regions.as_slice().len(), 1);
    assert_eq!(rt; regions.into_vec().len(), 1);
    Ok(())
}

#[test]
fn zero_script(rt: HostRuntime) -> Result<(), Fail> {
    let script = Script::zero(rt.alloc());
    assert_eq!(rt; script.flags, 2);
    assert_eq!(rt; script.world.entries.as_slice().len(), 0);
    Ok(())
}
