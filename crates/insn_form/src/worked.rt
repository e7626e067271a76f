//! Instructions worked out.
ghost use Rattle.insn_form.specs.Worked.{CallsThroughTheStack, PopsToTheStack, PushesOldTop, KeepsOrClears, Addresses, NamesHighBytes, NamesByNext};
ghost use Rattle.std.specs.Prelude.{true};
ghost use Rattle.insn_form.specs.WorkedTouched.{LeavesAlone, WritesInside};
ghost use Rattle.insn_form.specs.WorkedFurther.{ExtendsSigns, TakesOff, CountsDown, LeavesBits, AsksForFlags};

/// Operands relative to rsp while rsp moves from 0x1000.
pub fn stack_operands()
    ensures call { CallsThroughTheStack 0x1000 0xff8 }
    ensures pop { PopsToTheStack 0x1000 0x1008 }
    ensures push { PushesOldTop 0x1000 }
{}

/// What a result of fewer than 64 bits leaves of rax, which is 0xffffffff00000001.
pub fn partial_registers()
    ensures { KeepsOrClears 0xffff_fff0 0x1 0xffff_ffff_0000_fff0 0xffff_ffff_0000_f001 }
{}

/// Addresses from rcx, which is 0xfffffffffffffff0.
pub fn addresses()
    ensures { Addresses 0xffff_ffff_ffff_fff8 0xffff_fff8 0x6ff8 0x7ff8 }
{}

/// Bytes of registers by their codes.
pub fn high_bytes()
    ensures { NamesHighBytes 0 }
{}

/// The address of an operand in front of an immediate.
pub fn rip_operand()
    ensures { NamesByNext 0x401017 }
{}

/// Signs of cl, which is 0xf0, of eax, which is 1, and of rax, which is negative.
pub fn signs()
    ensures { ExtendsSigns 0xffff_fff0 0xffff_ffff_ffff_fff0 0xf0 0x1 0x0 0xffff_ffff_ffff_ffff }
{}

/// What `ret` and `leave` take off the stack.
pub fn taken_off()
    ensures { TakesOff 0x1018 0x0 0x8 }
{}

/// Counters in rcx, to a target.
pub fn counters()
    ensures { CountsDown 0xffff_ffff_ffff_ffef 0xffff_ffff_ffff_fff0 0x401000 }
{}

/// What is left of rax.
pub fn left_bits()
    ensures { LeavesBits 0x1 0xffff_ffff_0000_0001 0xffff_ffff_0000_0100 0xffff_ffff_0000_0201 }
{}

/// Undefined flags that the world tells.
pub fn asked_flags()
    ensures { AsksForFlags 0x10 true }
{}

/// Addresses that an instruction touches, and others beside them; where what it writes lies.
pub fn left_addresses()
    ensures touched { LeavesAlone 0x60_0000 0x60_0001 0xff8 0x1000 }
    ensures inside { WritesInside 0x60_0000 0xff8 0x1000 }
{}
