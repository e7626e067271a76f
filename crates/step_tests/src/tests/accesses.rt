//! What a step tells of the bytes that it read and wrote, which no command prints.
use crate::tests::stops::{entry_of, state_at};
use cpu_step::step::step;
use cpu_step::step_info::StepInfo;
use std::test::Fail;

/// The address and the number of bytes that are read or written, if any are.
type Access = Option<(u64, u8)>;

/// Code, the bytes that are read and those that are written. rax is 7, rcx is 0x6000f0, rsp is 0x600010.
const ACCESSES: [(&[u8], Access, Access); 7] = [
    // add [rcx], eax; cmp [rcx], al; mov eax, [rip+0x1feffa]
    (&[0x01, 0x01], Some((0x60_00f0, 4)), Some((0x60_00f0, 4))),
    (&[0x38, 0x01], Some((0x60_00f0, 1)), None),
    (
        &[0x8b, 0x05, 0xfa, 0xef, 0x1f, 0],
        Some((0x60_0000, 4)),
        None,
    ),
    // push [rcx]; call [rcx]; pop [rsp]; nop
    (&[0xff, 0x31], Some((0x60_00f0, 8)), Some((0x60_0008, 8))),
    (&[0xff, 0x11], Some((0x60_00f0, 8)), Some((0x60_0008, 8))),
    (
        &[0x8f, 0x04, 0x24],
        Some((0x60_0010, 8)),
        Some((0x60_0018, 8)),
    ),
    (&[0x90], None, None),
];

fn same(list: &[(u64, u8)], expected: Access) -> bool {
    match expected {
        None => list.is_empty(),
        Some(access) => list.len() == 1 && list[0] == access,
    }
}

/// Whether a step tells this of what it read and wrote itself.
fn tells(info: &StepInfo, read: Access, write: Access) -> bool {
    same(info.reads.as_slice(), read) && same(info.writes.as_slice(), write)
}

#[test]
fn accesses(rt: HostRuntime) -> Result<(), Fail> {
    for &(code, read, write) in &ACCESSES {
        let mut state = state_at(rt.alloc(), code)?;
        let info = step(&mut state, None).ok().ok_or("a step")?;
        assert!(rt; tells(&info, read, write), "{code:?}");
        assert!(rt; !info.used && !info.answer_wrote, "{code:?}");
    }
    Ok(())
}

/// `xor [rcx], eax` uses an entry for its undefined flag, and none of its writes.
#[test]
fn accesses_with_an_undefined_flag(rt: HostRuntime) -> Result<(), Fail> {
    let mut state = state_at(rt.alloc(), &[0x31, 0x01])?;
    let entry = entry_of(rt.alloc(), &[0x31, 0x01], &[(0x60_0000, &[0xaa])])?;
    let info = step(&mut state, Some(&entry)).ok().ok_or("a step")?;
    let access = Some((0x60_00f0, 4));
    assert!(rt; tells(&info, access, access));
    assert!(rt; info.used && !info.answer_wrote);
    Ok(())
}

/// Of `cpuid` it is told whether its answer wrote, and of the step itself nothing.
#[test]
fn answers_that_write(rt: HostRuntime) -> Result<(), Fail> {
    let writes: [&[(u64, &[u8])]; 2] = [&[], &[(0x60_0000, &[0xaa])]];
    for &writes in &writes {
        let mut state = state_at(rt.alloc(), &[0x0f, 0xa2])?;
        let entry = entry_of(rt.alloc(), &[0x0f, 0xa2], writes)?;
        let info = step(&mut state, Some(&entry)).ok().ok_or("a step")?;
        assert!(rt; tells(&info, None, None));
        assert!(rt; info.used && info.answer_wrote != writes.is_empty());
    }
    Ok(())
}
