//! Starts that are looked up by their addresses, and what each is, as far as no command shows it.
use cpu_alu::Width;
use elf_read::elf::read_elf;
use elf_read::writing::plain_file;
use insn_form::{Insn, Op, Spot, Value};
use start_entries::entry::StartEntry;
use start_entries::starts::{Starts, ascend};
use std::test::Fail;

/// The text `mov rax, rbx`, an EVEX instruction, `nop`, and its starts.
const TEXT: &[u8] = &[0x48, 0x89, 0xd8, 0x62, 0xf1, 0x7c, 0x48, 0x28, 0xc1, 0x90];

const STARTS: &[u32] = &[0x40_1000, 0x40_1003, 0x40_1009];

/// The instruction `mov rax, rbx`.
const MOV: Option<Insn> = Some(Insn::Exact(Op::Mov {
    width: Width::W64,
    dst: Spot::Reg(0),
    src: Value::Spot(Spot::Reg(3)),
}));

const NOP: Option<Insn> = Some(Insn::Exact(Op::Nop { rip_disp: None }));

const ENTRIES: [StartEntry; 3] = [
    StartEntry {
        addr: 0x40_1000,
        len: 3,
        form: MOV,
        shared: false,
    },
    StartEntry {
        addr: 0x40_1003,
        len: 6,
        form: None,
        shared: false,
    },
    StartEntry {
        addr: 0x40_1009,
        len: 1,
        form: NOP,
        shared: false,
    },
];

/// An address, the start there, and the least start above it.
const LOOKED_UP: [(u32, Option<u32>, Option<u32>); 9] = [
    (0, None, Some(0x40_1000)),
    (0x40_0fff, None, Some(0x40_1000)),
    (0x40_1000, Some(0x40_1000), Some(0x40_1003)),
    (0x40_1001, None, Some(0x40_1003)),
    (0x40_1003, Some(0x40_1003), Some(0x40_1009)),
    (0x40_1008, None, Some(0x40_1009)),
    (0x40_1009, Some(0x40_1009), None),
    (0x40_100a, None, None),
    (0xffff_ffff, None, None),
];

#[test]
fn starts_by_address(rt: HostRuntime) -> Result<(), Fail> {
    let file = plain_file(rt.alloc(), TEXT)?;
    let elf = read_elf(rt.alloc(), &file)?;
    assert!(rt; ascend(STARTS));
    let starts = Starts::build(rt.alloc(), &elf, STARTS)?;
    assert_eq!(rt; starts.len(), 3);
    assert!(rt; starts.entries() == ENTRIES.as_slice());
    for &(addr, here, above) in &LOOKED_UP {
        assert_eq!(rt; starts.at(addr).map(|entry| entry.addr), here);
        assert_eq!(rt; starts.next_after(addr).map(|entry| entry.addr), above);
    }
    Ok(())
}
