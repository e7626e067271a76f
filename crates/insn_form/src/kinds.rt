//! Which rows decide what a one-byte opcode is, as a table (Intel SDM, volume 2, appendix A).

/// What a one-byte opcode may be.
#[derive(Clone, Copy)]
pub(crate) enum Kind {
    /// No step.
    Ending,
    /// A branch.
    Branch,
    /// `mov`.
    Move,
    /// `mov` of a constant into ModRM:r/m, where reg is 0, and no step else.
    MoveConstant,
    /// `movsxd`, or asked.
    Extend,
    /// `lea`, or asked.
    Lea,
    /// `xchg`, or asked.
    Xchg,
    /// `xchg` or `nop`.
    XchgOrNop,
    /// `push` or `pop`.
    Stack,
    /// One of the eight operations of two operands.
    Alu,
    /// `test`.
    Test,
    /// `test`, `not` or `neg` by reg, or asked.
    TestOrUnary,
    /// `inc` or `dec` by reg, and no step else.
    Unary,
    /// `inc`, `dec`, an indirect branch or `push` by reg, and no step else.
    Group,
    /// A shift by reg, or asked.
    Shift,
    /// `cbw` and `cwd` and their wider forms.
    Widen,
    /// `leave`.
    Leave,
    /// An operation on flags.
    Flag,
    /// Any other.
    Asked,
}

/// The bytes 00 to FF in order, each by three letters for its kind.
macro_rules! kinds {
    (end) => { Kind::Ending };
    (bra) => { Kind::Branch };
    (mov) => { Kind::Move };
    (con) => { Kind::MoveConstant };
    (ext) => { Kind::Extend };
    (lea) => { Kind::Lea };
    (xch) => { Kind::Xchg };
    (nop) => { Kind::XchgOrNop };
    (stk) => { Kind::Stack };
    (alu) => { Kind::Alu };
    (tst) => { Kind::Test };
    (una) => { Kind::TestOrUnary };
    (inc) => { Kind::Unary };
    (grp) => { Kind::Group };
    (shi) => { Kind::Shift };
    (wid) => { Kind::Widen };
    (lev) => { Kind::Leave };
    (flg) => { Kind::Flag };
    (ask) => { Kind::Asked };
    ($($first:literal: $($cell:ident)*;)*) => {
        [$($(kinds!($cell)),*),*]
    };
}

pub(crate) static ONE_BYTE: [Kind; 256] = kinds! {
    0x00: alu alu alu alu alu alu ask ask alu alu alu alu alu alu ask ask;
    0x10: alu alu alu alu alu alu ask ask alu alu alu alu alu alu ask ask;
    0x20: alu alu alu alu alu alu ask ask alu alu alu alu alu alu ask ask;
    0x30: alu alu alu alu alu alu ask ask alu alu alu alu alu alu ask ask;
    0x40: ask ask ask ask ask ask ask ask ask ask ask ask ask ask ask ask;
    0x50: stk stk stk stk stk stk stk stk stk stk stk stk stk stk stk stk;
    0x60: ask ask ask ext ask ask ask ask stk ask stk ask end end end end;
    0x70: bra bra bra bra bra bra bra bra bra bra bra bra bra bra bra bra;
    0x80: alu alu ask alu tst tst xch xch mov mov mov mov ask lea ask stk;
    0x90: nop xch xch xch xch xch xch xch wid wid ask ask ask ask flg flg;
    0xa0: ask ask ask ask ask ask ask ask tst tst ask ask ask ask ask ask;
    0xb0: mov mov mov mov mov mov mov mov mov mov mov mov mov mov mov mov;
    0xc0: shi shi bra bra ask ask con con ask lev end end end end ask end;
    0xd0: shi shi shi shi ask ask ask ask ask ask ask ask ask ask ask ask;
    0xe0: bra bra bra bra end end end end bra bra ask bra end end end end;
    0xf0: ask end ask ask end flg una una flg flg end end ask ask inc grp;
};
