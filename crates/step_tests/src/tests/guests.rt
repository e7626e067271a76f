//! Guests whose bytes were computed by another program.
use guest_gen::guest::generate;
use std::test::Fail;

/// What a guest's text, starts and sites are: how many, and their sums, each time 31 times the sum before and one more,
/// modulo 2^32; and the kinds of eight blocks that are drawn.
#[derive(Clone, Copy)]
struct Row {
    seed: u64,
    blocks: u32,
    lens: [usize; 3],
    sums: [u32; 3],
    kinds: [u32; 8],
}

const ROWS: [Row; 12] = [
    Row {
        seed: 0x0,
        blocks: 1,
        lens: [11, 3, 1],
        sums: [0xe867220b, 0xf87e1025, 0x401001],
        kinds: [14, 1, 2, 10, 6, 0, 14, 1],
    },
    Row {
        seed: 0x1,
        blocks: 1,
        lens: [7, 3, 1],
        sums: [0x4e61e241, 0xf87e1021, 0x401001],
        kinds: [12, 3, 13, 4, 6, 4, 13, 2],
    },
    Row {
        seed: 0x2,
        blocks: 3,
        lens: [16, 6, 1],
        sums: [0xb4afdf12, 0x4e96ed05, 0x401001],
        kinds: [9, 5, 0, 0, 15, 6, 9, 12],
    },
    Row {
        seed: 0x3,
        blocks: 20,
        lens: [90, 27, 3],
        sums: [0x3489f612, 0x381e254b, 0xf87e18a2],
        kinds: [6, 7, 7, 4, 9, 7, 14, 11],
    },
    Row {
        seed: 0x4,
        blocks: 50,
        lens: [197, 57, 7],
        sums: [0xc85006dc, 0x61ae2ec7, 0xf69defff],
        kinds: [4, 9, 13, 7, 3, 2, 4, 1],
    },
    Row {
        seed: 0x5,
        blocks: 300,
        lens: [1241, 364, 38],
        sums: [0x359de337, 0xd34feed8, 0x923af73],
        kinds: [1, 11, 4, 11, 14, 7, 7, 10],
    },
    Row {
        seed: 0x7,
        blocks: 2000,
        lens: [8211, 2428, 250],
        sums: [0x9ba6b81b, 0xfad50e95, 0xa83ae516],
        kinds: [12, 15, 2, 2, 0, 8, 6, 13],
    },
    Row {
        seed: 0x7,
        blocks: 2001,
        lens: [8216, 2429, 223],
        sums: [0x53f5ae54, 0x600cf41e, 0x783f7b06],
        kinds: [12, 15, 2, 2, 0, 8, 6, 13],
    },
    Row {
        seed: 0x123456789abcdef,
        blocks: 1000,
        lens: [4016, 1176, 125],
        sums: [0xff149ed9, 0xc58719fa, 0xdd649da5],
        kinds: [3, 6, 8, 7, 1, 12, 1, 6],
    },
    Row {
        seed: 0xffffffffffffffff,
        blocks: 16,
        lens: [60, 24, 2],
        sums: [0x6d07229d, 0xd63c003c, 0x802003a],
        kinds: [1, 15, 11, 5, 0, 6, 11, 15],
    },
    Row {
        seed: 0xb,
        blocks: 2500,
        lens: [10083, 2986, 250],
        sums: [0x58046d6b, 0x37773840, 0x1959d97b],
        kinds: [1, 7, 14, 0, 12, 7, 3, 8],
    },
    Row {
        seed: 0x9,
        blocks: 20000,
        lens: [81589, 23808, 250],
        sums: [0x44e0141f, 0x572ee924, 0xd7f7b159],
        kinds: [6, 3, 9, 7, 7, 9, 7, 7],
    },
];

fn sum_of_bytes(bytes: &[u8]) -> u32 {
    let mut sum: u32 = 0;
    for byte in bytes {
        sum = sum.wrapping_mul(31).wrapping_add(u32::from(*byte));
    }
    sum
}

fn sum_of(numbers: &[u32]) -> u32 {
    let mut sum: u32 = 0;
    for number in numbers {
        sum = sum.wrapping_mul(31).wrapping_add(*number);
    }
    sum
}

/// The text behind the file's first page.
fn text_of(file: &[u8]) -> &[u8] {
    file.get(0x1000..).unwrap_or(b"")
}

#[test]
fn drafts(rt: HostRuntime) -> Result<(), Fail> {
    for row in &ROWS {
        let is_allowed = row.blocks >= 1 && row.blocks <= 20_000;
        assert!(rt; is_allowed);
        let guest = generate(rt.alloc(), row.seed, row.blocks)?;
        let text = text_of(guest.elf());
        let lens = [text.len(), guest.starts().len(), guest.sites().len()];
        let sums = [
            sum_of_bytes(text),
            sum_of(guest.starts()),
            sum_of(guest.sites()),
        ];
        assert!(rt; lens == row.lens, "lengths of {:x}", row.seed);
        assert!(rt; sums == row.sums, "sums of {:x}", row.seed);
    }
    Ok(())
}

/// The bytes at the front of a block of each kind, and the block's length: longer where it holds a number or a displacement.
const BLOCKS: [(&[u8], usize); 16] = [
    (b"\x48\x89\xd8", 3),
    (b"\x48\x01\xc3", 3),
    (b"\xb8", 5),
    (b"\x48\x81\xc3", 7),
    (b"\x48\x83\xc1\x01", 4),
    (b"\x50\x58", 2),
    (b"\x48\x39\xd8\x74\x03\x48\xff\xc2", 8),
    (b"\x48\x8b\x45\x08", 4),
    (b"\x48\x89\x45\x10", 4),
    (b"\xe8", 5),
    (b"\x48\x8d\x05", 7),
    (b"\x48\x31\xc8", 3),
    (b"\x90", 1),
    (b"\x0f\xa2", 2),
    (b"\x48\x8d\x4c\x01\x04", 5),
    (b"\xff\xd6", 2),
];

/// Of eight blocks each is of its kind, and a jump of five bytes stands behind them.
#[test]
fn kinds(rt: HostRuntime) -> Result<(), Fail> {
    for row in &ROWS {
        let guest = generate(rt.alloc(), row.seed, 8)?;
        let mut at = 0x1001_usize;
        for kind in row.kinds {
            let (front, len) = BLOCKS.get(kind as usize).copied().ok_or("a kind")?;
            let text = guest.elf().get(at..).unwrap_or(b"");
            assert!(rt; text.starts_with(front), "kinds of {:x}", row.seed);
            at = at.saturating_add(len);
        }
        assert_eq!(rt; guest.elf().len(), at.saturating_add(5));
    }
    Ok(())
}

/// A guest of one block: the draw is 0x14057B7E, and its kind 14.
#[test]
fn guest_of_one_block(rt: HostRuntime) -> Result<(), Fail> {
    let guest = generate(rt.alloc(), 0, 1)?;
    assert_eq!(rt; guest.elf().len(), 0x100B);
    assert_eq!(rt; sum_of_bytes(guest.elf()), 0xc67d8fc);
    assert_eq!(rt;
        guest.starts(),
        [0x40_1000, 0x40_1001, 0x40_1006].as_slice()
    );
    assert_eq!(rt; guest.sites(), [0x40_1001].as_slice());
    assert_eq!(rt; guest.script().regs[4], 0x60_0F00);
    assert_eq!(rt; guest.script().world.entries.as_slice().len(), 0);
    Ok(())
}

/// 100,000 steps of a longer one ask 8,884 questions.
#[test]
fn guest_of_many_blocks(rt: HostRuntime) -> Result<(), Fail> {
    let guest = generate(rt.alloc(), 7, 2000)?;
    assert_eq!(rt; guest.elf().len(), 0x1000 + 8211);
    assert_eq!(rt; sum_of_bytes(guest.elf()), 0x76e6b9dc);
    assert_eq!(rt; guest.sites().len(), 250);
    assert_eq!(rt; guest.script().world.entries.as_slice().len(), 8884);
    Ok(())
}
