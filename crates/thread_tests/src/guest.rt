//! What a guest is made of.
use cpu_state::script::Script;
use elf_read::segment::{PF_R, PF_X};
use elf_read::writing::{file_with, load_entry};
use parts_of_tests::scripts::script_with;
use std::alloc::Global;

/// Of each thread rax, rsp and the flags word at the start.
const VALUES: [(u64, u64, u64); 4] = [
    (0x1122_3344_5566_7788, 0x50_1000, 0x2),
    (0x2244_6688_aacc_ef10, 0x50_2000, 0x8d7),
    (0x3366_99cd_0033_6698, 0x50_3000, 0x846),
    (0x4488_cd11_5599_de20, 0x50_4000, 0x893),
];

/// The file of a text at 0x401000, which begins there, and of code that a stroke parts from it and that lies 0x2000000 further on.
pub fn file_of(alloc: Global, digits: &str) -> Option<Vec<u8>> {
    let (text, code) = digits.split_once('/').unwrap_or((digits, ""));
    let mut bytes = hex::decode(alloc, text).ok()?;
    let code = hex::decode(alloc, code).ok()?;
    let size = bytes.len() as u64;
    if size > 0x1000 {
        return None;
    }
    let first = load_entry(PF_R | PF_X, 0x1000, 0x40_1000, size);
    let second = load_entry(
        PF_R | PF_X,
        0x1000 + size,
        0x240_1000 + size,
        code.len() as u64,
    );
    bytes.extend_from_slice(&code).ok()?;
    file_with(alloc, 0x40_1000, &[first, second], 0x1000, &bytes).ok()
}

/// The addresses with commas between them.
pub fn starts_of(alloc: Global, words: &str) -> Option<Vec<u32>> {
    let mut starts = Vec::new(alloc);
    for word in words.split(',') {
        starts.push(u32::from_str_radix(word, 16).ok()?).ok()?;
    }
    Some(starts)
}

/// The first thread's script, with these lines behind its values.
fn script_of(alloc: Global, world: &str) -> Option<Script> {
    let mut lines = String::new(alloc);
    for line in world.split(';') {
        lines.push_str(line).ok()?;
        lines.push('\n').ok()?;
    }
    script_with(alloc, 0, lines.as_str()).ok()
}

/// The scripts of so many threads, at most four.
pub fn scripts_of(alloc: Global, threads: usize, world: &str) -> Option<Vec<Script>> {
    let mut scripts = Vec::new(alloc);
    for (rax, rsp, flags) in VALUES.iter().take(threads) {
        let mut script = if scripts.is_empty() {
            script_of(alloc, world)?
        } else {
            Script::zero(alloc)
        };
        script.regs[0] = *rax;
        script.regs[4] = *rsp;
        script.flags = *flags;
        scripts.push(script).ok()?;
    }
    Some(scripts)
}
