//! Laws of relocated code.
ghost use Rattle.relocate_insn.specs.Running.{RelocatedCodeWorks};
ghost use Rattle.relocate_insn.specs.Worked.{CallIsRelocated};

/// Relocated code does the work of its instruction: it leads to where the instruction leads, within six steps.
pub fn relocated_code_works()
    ensures { RelocatedCodeWorks }
{}

/// CALL through the memory to which it pushes, by hand: its code, and a state from which the code leads to the target, with the address
/// after the call on the stack.
pub fn call_through_memory()
    ensures { CallIsRelocated }
{}
