//! What stays where no step is made or a delivery doesn't fit, and what a stop tells beside what is printed of it: a command ends there,
//! and shows no memory.
use cpu_alu::unpack;
use cpu_state::memory::{AddError, Memory};
use cpu_state::page_list::PageList;
use cpu_state::state::State;
use cpu_state::world::{Answer, Entry, MemWrite, MemWrites, Question};
use cpu_step::step::step;
use cpu_step::stop::Stop;
use elf_read::elf::read_elf;
use elf_read::writing::plain_file;
use image_runs::delivery::Delivery;
use image_step::delivery::Unfit;
use image_step::runner::Runner;
use parts_of_tests::scripts::script_with;
use pun_base::byte_list::ByteList;
use start_entries::starts::ascend;
use std::alloc::Global;
use std::test::Fail;

const CODE: u64 = 0x40_1000;

/// A state at code: 256 bytes of zeros from 0x600000 on and one at 0x602000 can be written; rax is 7, rcx is 0x6000f0, rsp is 0x600010.
pub(crate) fn state_at(alloc: Global, code: &[u8]) -> Result<State, AddError> {
    let mut mem = Memory::empty(alloc);
    if !code.is_empty() {
        mem.add(alloc, CODE, 5, code, 0)?;
    }
    mem.add(alloc, 0x60_0000, 6, &[], 0x100)?;
    mem.add(alloc, 0x60_2000, 6, &[], 1)?;
    let mut regs = [0; 16];
    regs[0] = 7;
    regs[1] = 0x60_00f0;
    regs[4] = 0x60_0010;
    Ok(State {
        regs,
        rip: CODE,
        flags: unpack(0x202),
        fs: 0,
        gs: 0,
        mem,
    })
}

/// Writes of these bytes at these addresses.
fn writes_of(alloc: Global, writes: &[(u64, &[u8])]) -> Result<MemWrites, Fail> {
    let mut list = Vec::new(alloc);
    for &(addr, bytes) in writes {
        let bytes = Vec::from_slice(alloc, bytes)?;
        if bytes.is_empty() || bytes.len() > 4096 {
            return Err("1 to 4,096 bytes".into());
        }
        list.push(MemWrite {
            addr,
            bytes: PageList::from_vec(bytes),
        })?;
    }
    Ok(MemWrites::from_vec(list))
}

/// An answer to this instruction: each register is 9, the flags word is 0x8d7, and it writes.
pub(crate) fn entry_of(alloc: Global, code: &[u8], writes: &[(u64, &[u8])]) -> Result<Entry, Fail> {
    if code.len() > 15 {
        return Err("an instruction".into());
    }
    Ok(Entry {
        question: Question {
            bytes: ByteList::from_slice(code),
            addr: None,
        },
        answer: Answer {
            regs: [Some(9); 16],
            flags: Some(0x8d7),
            fs: Some(9),
            gs: None,
            writes: writes_of(alloc, writes)?,
        },
    })
}

/// Writes of an answer, and the first byte that can't be written: behind written ones, in the middle of a write, of the code, and the
/// last address of all.
const LACKING: [(&[(u64, &[u8])], u64); 6] = [
    (&[(0x60_0000, &[1, 2]), (0x70_0000, &[3])], 0x70_0000),
    (&[(0x60_0000, &[1, 2]), (0x60_2000, &[3, 4])], 0x60_2001),
    (&[(0x60_00ff, &[1, 2]), (0x70_0000, &[3])], 0x60_0100),
    (&[(0x70_0000, &[1]), (0x60_00ff, &[2, 3])], 0x70_0000),
    (&[(0x60_0000, &[1]), (0x40_1001, &[0xa2])], 0x40_1001),
    (&[(u64::MAX, &[1, 2])], u64::MAX),
];

/// The bytes that the writes of a table name.
fn named_bytes(state: &State) -> [Option<u64>; 3] {
    [0x60_0000, 0x60_00f8, 0x60_2000].map(|addr| {
        let size = if addr == 0x60_2000 { 1 } else { 8 };
        state.load(addr, size).ok()
    })
}

#[test]
fn nothing_of_an_answer_that_lacks_a_byte(rt: HostRuntime) -> Result<(), Fail> {
    for &(writes, lacks) in &LACKING {
        let mut state = state_at(rt.alloc(), &[0x0f, 0xa2])?;
        let core = state.core();
        let entry = entry_of(rt.alloc(), &[0x0f, 0xa2], writes)?;
        let stop = step(&mut state, Some(&entry)).err();
        assert!(rt; stop == Some(Stop::NoByte { addr: lacks }), "{lacks:x}");
        assert!(rt; state.core() == core && state.rip == CODE, "{lacks:x}");
        assert!(rt; named_bytes(&state) == [Some(0); 3], "{lacks:x}");
    }
    Ok(())
}

/// `xor eax, [rip+0x1ff00a]` asks with zeros for its displacement, and names its operand.
#[test]
fn question_of_a_stop(rt: HostRuntime) -> Result<(), Fail> {
    let code = [0x33, 0x05, 0x0a, 0xf0, 0x1f, 0];
    let mut state = state_at(rt.alloc(), &code)?;
    let core = state.core();
    let entry = entry_of(rt.alloc(), &code, &[(0x60_0000, &[1])])?;
    let asked = Question {
        bytes: ByteList::from_slice(&[0x33, 0x05, 0, 0, 0, 0]),
        addr: Some(0x60_0010),
    };
    let stop = step(&mut state, Some(&entry)).err();
    assert!(rt; stop == Some(Stop::WorldDiffers { addr: CODE, asked }));
    assert!(rt; state.core() == core && state.rip == CODE);
    assert!(rt; named_bytes(&state) == [Some(0); 3]);
    Ok(())
}

#[test]
fn numbers_of_stops(rt: HostRuntime) {
    let asked = Question {
        bytes: ByteList::new(),
        addr: None,
    };
    assert_eq!(rt; Stop::NoByte { addr: 0 }.number(), 1);
    assert_eq!(rt; Stop::UnknownInsn { addr: 0 }.number(), 2);
    assert_eq!(rt; Stop::Ending { addr: 0 }.number(), 3);
    assert_eq!(rt; Stop::WorldEmpty { addr: 0 }.number(), 4);
    assert_eq!(rt; Stop::WorldDiffers { addr: 0, asked }.number(), 5);
}

/// Writes of a delivery to a text of three bytes, and the address at which it doesn't fit: of the text, behind the memory, past its end.
const UNFIT: [(&[(u64, &[u8])], u64); 3] = [
    (&[(0x60_0008, &[1]), (0x40_1002, &[0x90])], 0x40_1002),
    (&[(0x60_0008, &[1]), (0x60_0018, &[1])], 0x60_0018),
    (&[(0x60_0009, &[1, 2, 3, 4, 5, 6, 7, 8])], 0x60_0010),
];

#[test]
fn nothing_of_a_delivery_that_does_not_fit(rt: HostRuntime) -> Result<(), Fail> {
    let file = plain_file(rt.alloc(), &[0x90, 0x90, 0xf4])?;
    let elf = read_elf(rt.alloc(), &file)?;
    let lines = "zero 0000000000600000 0000000000600010 rw-\nend\n";
    let script = script_with(rt.alloc(), 0x60_0010, lines)?;
    let starts: &[u32] = &[0x40_1000, 0x40_1001, 0x40_1002];
    assert!(rt; ascend(starts));
    let mut runner = Runner::new(rt.alloc(), &elf, &script, starts)?;
    let core = runner.state().core();
    for &(writes, addr) in &UNFIT {
        let delivery = Delivery {
            core,
            rip: 0x40_1001,
            writes: writes_of(rt.alloc(), writes)?,
        };
        assert!(rt;
            runner.deliver(&delivery) == Err(Unfit { addr }),
            "{addr:x}"
        );
        assert!(rt; runner.state().rip == CODE, "{addr:x}");
        assert!(rt; runner.state().load(0x60_0008, 8) == Ok(0), "{addr:x}");
    }
    Ok(())
}
