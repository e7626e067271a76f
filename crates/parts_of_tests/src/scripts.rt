//! Scripts whose values are zero but for rsp.
use cpu_state::script::Script;
use image_step::error::ScriptError;
use image_step::reading::read_world;
use std::alloc::Global;

/// The values of a world script, all of them zero.
const ZEROS: &str = "e9world 1\n\
    rax 0000000000000000\n\
    rcx 0000000000000000\n\
    rdx 0000000000000000\n\
    rbx 0000000000000000\n\
    rsp 0000000000000000\n\
    rbp 0000000000000000\n\
    rsi 0000000000000000\n\
    rdi 0000000000000000\n\
    r8 0000000000000000\n\
    r9 0000000000000000\n\
    r10 0000000000000000\n\
    r11 0000000000000000\n\
    r12 0000000000000000\n\
    r13 0000000000000000\n\
    r14 0000000000000000\n\
    r15 0000000000000000\n\
    flags 0000000000000000\n\
    fs 0000000000000000\n\
    gs 0000000000000000\n";

/// The script with this value of rsp and all others zero, and with these lines behind the values.
pub fn script_with(alloc: Global, rsp: u64, lines: &str) -> Result<Script, ScriptError> {
    let text = format!(in alloc; "{ZEROS}{lines}")?;
    if text.len() >= 100_000 {
        return Ok(Script::zero(alloc));
    }
    let mut script = read_world(alloc, text.as_bytes())?;
    script.regs[4] = rsp;
    Ok(script)
}
