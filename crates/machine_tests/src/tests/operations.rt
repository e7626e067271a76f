//! Worked values, and values that a processor gave.
mod measured;

use cpu_alu::AluOp::{Add, Shl, Shr};
use cpu_alu::Width::{W8, W32, W64};
use cpu_alu::{AluOut, Flags, alu, pack, unpack};

/// No flag is set.
const CLEAR: Flags = Flags {
    cf: false,
    pf: false,
    af: false,
    zf: false,
    sf: false,
    of: false,
    rest: 0,
};

#[test]
fn flags_and_undefined_flags(rt: HostRuntime) {
    let carry = Flags { cf: true, ..CLEAR };
    let rows = [
        (
            alu(Add, W8, 0x7f, 1, CLEAR),
            0x80,
            Flags {
                af: true,
                sf: true,
                of: true,
                ..CLEAR
            },
            0,
        ),
        (
            alu(Shl, W32, 0x8000_0001, 1, CLEAR),
            2,
            Flags {
                cf: true,
                of: true,
                ..CLEAR
            },
            0x04,
        ),
        (
            alu(Shl, W8, 1, 8, CLEAR),
            0,
            Flags {
                zf: true,
                pf: true,
                ..CLEAR
            },
            0x25,
        ),
        (alu(Shr, W64, 1, 64, carry), 1, carry, 0),
    ];
    for (out, value, flags, undefined) in rows {
        let want = AluOut {
            value,
            flags,
            undefined,
        };
        assert_eq!(rt; out, want);
    }
}

#[test]
fn words_of_flags(rt: HostRuntime) {
    let all = Flags {
        cf: true,
        pf: true,
        af: true,
        zf: true,
        sf: true,
        of: true,
        rest: 0x202,
    };
    let of = Flags { of: true, ..CLEAR };
    assert_eq!(rt; pack(all), 0xad7);
    assert_eq!(rt; unpack(0xad7), all);
    assert_eq!(rt; pack(of), 0x800);
    assert_eq!(rt; unpack(0x800), of);
    // the six places of the rest are left out
    assert_eq!(rt;
        pack(Flags {
            rest: u64::MAX,
            ..CLEAR
        }),
        0xffff_ffff_ffff_f72a
    );
}
