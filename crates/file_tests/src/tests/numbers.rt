//! Numbers of failures, of which a command prints that of a refusal alone.
use elf_emit::emit::EmitError;

#[test]
fn failures_have_numbers(rt: HostRuntime) {
    let refusal = EmitError::TooManySegments { count: 1025 };
    assert_eq!(rt; refusal.number(), Some(1));
    assert_eq!(rt; EmitError::WriteFault.number(), Some(2));
    assert_eq!(rt; EmitError::Memory.number(), None);
}
