//! Conditions, and the code of one by hand.
ghost use Rattle.std.specs.Prelude.{◌<◌};

use cond_action::{cond_code, holds};
use pun_base::action::{Base, CompareOp, Comparison, Comparisons};

/// Whether a register that holds a number, where all others hold another one, compares so with a value.
fn compares(reg: u8, x: u64, op: CompareOp, value: u32) -> bool
    requires { reg < 16 }
{
    let mut regs = [!x; 16];
    regs[usize::from(reg)] = x;
    holds(Comparisons::One(Comparison { reg, op, value }), &regs)
}

/// An operator, and whether it holds of a number below the value, of the value, of a number above it, and of the value with bit 63 set.
const OPERATORS: [(CompareOp, [bool; 4]); 6] = [
    (CompareOp::Eq, [false, true, false, false]),
    (CompareOp::Ne, [true, false, true, true]),
    (CompareOp::Lt, [true, false, false, false]),
    (CompareOp::Le, [true, true, false, false]),
    (CompareOp::Gt, [false, false, true, true]),
    (CompareOp::Ge, [false, true, true, true]),
];

#[test]
fn operators(rt: HostRuntime) {
    for &(op, [below, at, above, high]) in &OPERATORS {
        for value in [0u32, 5, 0x7FFF_FFFF] {
            let x = u64::from(value);
            if value != 0 {
                assert_eq!(rt; compares(7, x - 1, op, value), below);
            }
            assert_eq!(rt; compares(7, x, op, value), at);
            assert_eq!(rt; compares(7, x + 1, op, value), above);
            assert_eq!(rt; compares(7, x + 0x8000_0000_0000_0000, op, value), high);
        }
    }
}

#[test]
fn registers(rt: HostRuntime) {
    for reg in 0..16u8 {
        assert!(rt; compares(reg, 9, CompareOp::Eq, 9), "{reg}");
    }
}

/// Comparisons of registers that hold their own codes, and whether all three hold.
const THREE: [([u32; 3], bool); 4] = [
    ([0, 4, 15], true),
    ([1, 4, 15], false),
    ([0, 5, 15], false),
    ([0, 4, 16], false),
];

#[test]
fn one_of_three_fails(rt: HostRuntime) {
    let regs = [0, 1, 2, 3, 4, 5, 6, 7, 8, 9, 10, 11, 12, 13, 14, 15];
    for &([rax, rsp, r15], want) in &THREE {
        let is = |reg, value| Comparison {
            reg,
            op: CompareOp::Eq,
            value,
        };
        let list = Comparisons::Three(is(0, rax), is(4, rsp), is(15, r15));
        assert_eq!(rt; holds(list, &regs), want);
    }
}

#[test]
fn cover_when_rdi_is_5(rt: HostRuntime) {
    let rdi = Comparison {
        reg: 7,
        op: CompareOp::Eq,
        value: 5,
    };
    let code = cond_code(Base::Cover, Comparisons::One(rdi), 0, 0x20000);
    let want = [
        0x48, 0x89, 0x04, 0x25, 0x00, 0x00, 0x02, 0x00, 0x9F, 0x0F, 0x90, 0xC0, 0x89, 0x04, 0x25,
        0x08, 0x00, 0x02, 0x00, 0x48, 0x8B, 0x04, 0x25, 0x00, 0x00, 0x02, 0x00, 0x48, 0x81, 0xFF,
        0x05, 0x00, 0x00, 0x00, 0x75, 0x08, 0xC6, 0x04, 0x25, 0x40, 0x00, 0x02, 0x00, 0x01, 0x8B,
        0x04, 0x25, 0x08, 0x00, 0x02, 0x00, 0x04, 0x7F, 0x9E, 0x48, 0x8B, 0x04, 0x25, 0x00, 0x00,
        0x02, 0x00,
    ];
    assert!(rt; code.as_slice() == want.as_slice());
}
