//! Rows of the manual's opcode maps.
use insn_tables::{Imm, TableRow, row};

#[test]
fn table_entries(rt: HostRuntime) {
    // vzeroupper, after VEX alone
    assert!(rt;
        row::<4>(0x77)
            == TableRow {
                known: true,
                modrm: false,
                imm: Imm::NoImm
            }
    );
    // EVEX, and the two escapes to further maps
    assert!(rt; !row::<0>(0x62).known);
    assert!(rt; !row::<1>(0x38).known);
    assert!(rt; !row::<1>(0x3a).known);
    // palignr
    assert!(rt;
        row::<3>(0x0f)
            == TableRow {
                known: true,
                modrm: true,
                imm: Imm::I8
            }
    );
    // enter, moffs, a constant, and the two groups
    assert!(rt;
        row::<0>(0xc8)
            == TableRow {
                known: true,
                modrm: false,
                imm: Imm::I16I8
            }
    );
    assert!(rt;
        row::<0>(0xa1)
            == TableRow {
                known: true,
                modrm: false,
                imm: Imm::Moffs
            }
    );
    assert!(rt;
        row::<0>(0xbf)
            == TableRow {
                known: true,
                modrm: false,
                imm: Imm::V
            }
    );
    assert!(rt;
        row::<0>(0xf6)
            == TableRow {
                known: true,
                modrm: true,
                imm: Imm::Group8
            }
    );
    assert!(rt;
        row::<0>(0xf7)
            == TableRow {
                known: true,
                modrm: true,
                imm: Imm::GroupZ
            }
    );
    // the other maps have a row for each byte
    assert!(rt;
        row::<2>(0xff)
            == TableRow {
                known: true,
                modrm: true,
                imm: Imm::NoImm
            }
    );
    assert!(rt;
        row::<5>(0x00)
            == TableRow {
                known: true,
                modrm: true,
                imm: Imm::NoImm
            }
    );
    assert!(rt;
        row::<6>(0xff)
            == TableRow {
                known: true,
                modrm: true,
                imm: Imm::I8
            }
    );
}
