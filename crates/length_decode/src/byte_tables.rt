//! Tables by one byte: which are prefixes, and what follows a ModRM byte (Intel SDM, volume 2, sections 2.1.1 and 2.1.3).
ghost use Rattle.std.specs.Prelude.{◌≡◌, None};
ghost use Rattle.length_decode.specs.Prefix as prefix;
ghost use Rattle.length_decode.specs.Rules as rules;

/// What follows a ModRM byte.
#[derive(Clone, Copy)]
pub(crate) struct Layout {
    /// Whether a SIB byte does.
    pub(crate) sib: bool,
    /// Bytes of displacement, but for a SIB byte whose base is none.
    pub(crate) disp: u8,
}

/// The bytes 00 to FF in order, `P` for those that are prefixes.
macro_rules! prefixes {
    (P) => { true };
    (o) => { false };
    ($($first:literal: $($cell:ident)*;)*) => {
        [$($(prefixes!($cell)),*),*]
    };
}

static PREFIXES: [bool; 256] = prefixes! {
    0x00: o o o o o o o o o o o o o o o o;
    0x10: o o o o o o o o o o o o o o o o;
    0x20: o o o o o o P o o o o o o o P o;
    0x30: o o o o o o P o o o o o o o P o;
    0x40: P P P P P P P P P P P P P P P P;
    0x50: o o o o o o o o o o o o o o o o;
    0x60: o o o o P P P P o o o o o o o o;
    0x70: o o o o o o o o o o o o o o o o;
    0x80: o o o o o o o o o o o o o o o o;
    0x90: o o o o o o o o o o o o o o o o;
    0xa0: o o o o o o o o o o o o o o o o;
    0xb0: o o o o o o o o o o o o o o o o;
    0xc0: o o o o o o o o o o o o o o o o;
    0xd0: o o o o o o o o o o o o o o o o;
    0xe0: o o o o o o o o o o o o o o o o;
    0xf0: P o P P o o o o o o o o o o o o;
};

/// For each mod the eight rm, which are the same for each of the eight reg: a displacement of so many bytes,
/// with `s` behind a SIB byte.
macro_rules! layouts {
    (d0) => { Layout { sib: false, disp: 0 } };
    (d1) => { Layout { sib: false, disp: 1 } };
    (d4) => { Layout { sib: false, disp: 4 } };
    (s0) => { Layout { sib: true, disp: 0 } };
    (s1) => { Layout { sib: true, disp: 1 } };
    (s4) => { Layout { sib: true, disp: 4 } };
    ($($mode:literal: $($rm:ident)*;)*) => {
        [$(
            $(layouts!($rm),)*
            $(layouts!($rm),)*
            $(layouts!($rm),)*
            $(layouts!($rm),)*
            $(layouts!($rm),)*
            $(layouts!($rm),)*
            $(layouts!($rm),)*
            $(layouts!($rm),)*
        )*]
    };
}

static LAYOUTS: [Layout; 256] = layouts! {
    0: d0 d0 d0 d0 s0 d4 d0 d0;
    1: d1 d1 d1 d1 s1 d1 d1 d1;
    2: d4 d4 d4 d4 s4 d4 d4 d4;
    3: d0 d0 d0 d0 d0 d0 d0 d0;
};

/// Whether the byte is a prefix.
#[inline(always)]
pub(crate) fn is_prefix(byte: u8) -> bool
    ensures { result ≡ prefix.is_prefix byte }
{
    PREFIXES[usize::from(byte)]
}

/// What follows the ModRM byte.
#[inline(always)]
pub(crate) fn after_modrm(modrm: u8) -> Layout
    ensures { result ≡ record { sib = rules.needs_sib modrm; disp = rules.disp_size modrm None } }
{
    LAYOUTS[usize::from(modrm)]
}
