//! Trampolines without an event, as those of victims.
use insn_form::whole_form;
use std::alloc::Global;
use thread_runs::thread_trampoline;

/// The bytes of the trampoline of the one instruction that is spelled, or that there is none; nothing where no instruction is spelled.
pub fn told(alloc: Global, digits: &str) -> Option<String> {
    let bytes = hex::decode(alloc, digits).ok()?;
    let insn = whole_form(&bytes)?;
    match thread_trampoline(None, &insn, &bytes, 0x40_1000, 0x2_1000, 0, 0x2_0000) {
        Ok(code) => hex::encode(alloc, code.bytes.as_slice()).ok(),
        Err(_) => String::from_str(alloc, "no code").ok(),
    }
}
