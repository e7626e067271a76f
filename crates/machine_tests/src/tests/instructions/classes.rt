//! Classes by prefixes, opcode and ModRM byte, as the classes are written down: instructions that are asked, that end a run, and those
//! of which a prefix decides.
use super::agrees;
use std::test::Fail;

const CLASSES: &str = "\
0f05 Asked(AskedForm { rip_disp: None, syscall: true, copied: true })
f30f05 Asked(AskedForm { rip_disp: None, syscall: true, copied: false })
f20f05 Asked(AskedForm { rip_disp: None, syscall: true, copied: false })
f3480f05 Asked(AskedForm { rip_disp: None, syscall: true, copied: false })
f00f05 Asked(AskedForm { rip_disp: None, syscall: false, copied: true })
0fa2 Asked(AskedForm { rip_disp: None, syscall: false, copied: true })
0f280510000000 Asked(AskedForm { rip_disp: Some(16), syscall: false, copied: true })
f30f6f05f0ffffff Asked(AskedForm { rip_disp: Some(-16), syscall: false, copied: true })
d9c0 Asked(AskedForm { rip_disp: None, syscall: false, copied: false })
9b Asked(AskedForm { rip_disp: None, syscall: false, copied: false })
0f00c8 Asked(AskedForm { rip_disp: None, syscall: false, copied: false })
0f01d0 Asked(AskedForm { rip_disp: None, syscall: false, copied: false })
0fae0510000000 Asked(AskedForm { rip_disp: Some(16), syscall: false, copied: false })
0fc70e Asked(AskedForm { rip_disp: None, syscall: false, copied: false })
f0480118 Asked(AskedForm { rip_disp: None, syscall: false, copied: true })
f08601 Asked(AskedForm { rip_disp: None, syscall: false, copied: true })
f3a4 Asked(AskedForm { rip_disp: None, syscall: false, copied: true })
a4 Asked(AskedForm { rip_disp: None, syscall: false, copied: true })
48f7e3 Asked(AskedForm { rip_disp: None, syscall: false, copied: true })
f7f9 Asked(AskedForm { rip_disp: None, syscall: false, copied: true })
f6c801 Asked(AskedForm { rip_disp: None, syscall: false, copied: true })
d1c0 Asked(AskedForm { rip_disp: None, syscall: false, copied: true })
c1c805 Asked(AskedForm { rip_disp: None, syscall: false, copied: true })
d3f0 Asked(AskedForm { rip_disp: None, syscall: false, copied: true })
8de0 Asked(AskedForm { rip_disp: None, syscall: false, copied: true })
8608 Asked(AskedForm { rip_disp: None, syscall: false, copied: true })
63c1 Asked(AskedForm { rip_disp: None, syscall: false, copied: true })
660fb7c1 Asked(AskedForm { rip_disp: None, syscall: false, copied: true })
66480fbfc1 Asked(AskedForm { rip_disp: None, syscall: false, copied: true })
6650 Asked(AskedForm { rip_disp: None, syscall: false, copied: true })
664850 Asked(AskedForm { rip_disp: None, syscall: false, copied: true })
66c9 Asked(AskedForm { rip_disp: None, syscall: false, copied: true })
666aff Asked(AskedForm { rip_disp: None, syscall: false, copied: true })
668f00 Asked(AskedForm { rip_disp: None, syscall: false, copied: true })
66ff30 Asked(AskedForm { rip_disp: None, syscall: false, copied: true })
48a10000000000000000 Asked(AskedForm { rip_disp: None, syscall: false, copied: true })
f34190 Asked(AskedForm { rip_disp: None, syscall: false, copied: true })
f290 Asked(AskedForm { rip_disp: None, syscall: false, copied: true })
f00f1f00 Asked(AskedForm { rip_disp: None, syscall: false, copied: true })
f30f1f00 Asked(AskedForm { rip_disp: None, syscall: false, copied: true })
f30f1efb Asked(AskedForm { rip_disp: None, syscall: false, copied: true })
0f1efa Asked(AskedForm { rip_disp: None, syscall: false, copied: true })
f389d8 Asked(AskedForm { rip_disp: None, syscall: false, copied: true })
c5f877 Asked(AskedForm { rip_disp: None, syscall: false, copied: true })
c4e27d180510000000 Asked(AskedForm { rip_disp: Some(16), syscall: false, copied: true })
0f38f007 Asked(AskedForm { rip_disp: None, syscall: false, copied: true })
0f3a0fc108 Asked(AskedForm { rip_disp: None, syscall: false, copied: true })
0fafc1 Asked(AskedForm { rip_disp: None, syscall: false, copied: true })
c8100000 Asked(AskedForm { rip_disp: None, syscall: false, copied: true })
6690 Exact(Nop { rip_disp: None })
662ef390 Exact(Nop { rip_disp: None })
66f30f1efa Exact(Nop { rip_disp: None })
f3c3 Exact(Ret { extra: 0 })
67c3 Exact(Ret { extra: 0 })
677502 Exact(Jcc { cc: 5, rel: 2 })
64ffe0 Exact(Jmp { target: Through(Reg(0)) })
48d3e8 Exact(Alu { op: Shr, width: W64, dst: Reg(0), src: Cl, keep: true })
c1e0ff Exact(Alu { op: Shl, width: W32, dst: Reg(0), src: Imm(4294967295), keep: true })
cc Ending
cd80 Ending
cf Ending
cb Ending
f4 Ending
fa Ending
6c Ending
e410 Ending
ec Ending
f1 Ending
c6c801 Ending
c7f800000000 Ending
fed0 Ending
ff18 Ending
ff28 Ending
fff8 Ending
0f0b Ending
0f06 Ending
0f30 Ending
0f34 Ending
0faa Ending
f2c3 Ending
f2e900000000 Ending
f0ffd0 Ending
f37502 Ending
64eb00 Ending
65e800000000 Ending
64c3 Ending
67e200 Ending
64658b00 Ending
f2f38b00 Ending
678b0510000000 Ending
";

#[test]
fn classes_are_by_prefix_and_opcode(rt: HostRuntime) -> Result<(), Fail> {
    let mut count = 0_usize;
    for line in CLASSES.lines() {
        assert!(rt; agrees(rt.alloc(), line)?, "at {line}");
        count = count.saturating_add(1);
    }
    assert_eq!(rt; count, 90);
    Ok(())
}
