//! Instructions against a disassembler and against the written classes.
mod classes;
mod disassembled;

use insn_form::code::{Code, CodeBytes};
use insn_form::whole_form;
use std::alloc::Global;
use std::test::Fail;

/// Whether a line has the bytes of an instruction and then this instruction.
fn agrees(alloc: Global, line: &str) -> Result<bool, Fail> {
    let Some((bytes, expected)) = line.split_once(' ') else {
        return Ok(false);
    };
    let bytes = hex::decode(alloc, bytes)?;
    let Some(insn) = whole_form(&bytes) else {
        return Ok(false);
    };
    let told = format!(in alloc; "{insn:?}")?;
    Ok(told.as_str() == expected)
}

#[test]
fn code_keeps_its_bytes(rt: HostRuntime) -> Result<(), Fail> {
    let code = Code {
        bytes: CodeBytes::from_slice(&[0x90, 0xC3]),
        falls: false,
    };
    assert_eq!(rt; code.bytes.as_slice(), [0x90, 0xC3].as_slice());
    assert!(rt; code.bytes == CodeBytes::from_slice(&[0x90, 0xC3]));
    assert!(rt; !code.falls);
    let longest = [0xCC; 128];
    assert_eq!(rt;
        CodeBytes::from_slice(&longest).as_slice(),
        longest.as_slice()
    );
    Ok(())
}
