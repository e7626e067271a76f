//! What an event does.
ghost use Rattle.std.specs.Prelude.{◌≡◌, ◌<◌, ◌^◌};
ghost use Rattle.pun_base.specs.Actions as actions;

use crate::limits::{COUNTER_LEN, DATA_AT, SLOT_LEN};

/// What a conditional action does where its condition holds.
#[derive(Clone, Copy, Debug, PartialEq, Eq)]
pub enum Base {
    /// Marks the site as reached.
    Cover,
    /// Counts.
    Count,
}

/// How a register is compared with a number, both without sign.
#[derive(Clone, Copy, Debug, PartialEq, Eq)]
pub enum CompareOp {
    /// `==`
    Eq,
    /// `!=`
    Ne,
    /// `<`
    Lt,
    /// `<=`
    Le,
    /// `>`
    Gt,
    /// `>=`
    Ge,
}

/// A comparison of a register's 64 bits with a number.
#[derive(Clone, Copy, Debug, PartialEq, Eq)]
pub struct Comparison {
    /// The register by its code: 0 is rax, 15 is r15 (Intel SDM, volume 2, table 2-4).
    pub reg: u8,
    pub op: CompareOp,
    /// Below 2^31.
    pub value: u32,
}

/// One to three comparisons, in order. A condition holds where all of them do.
#[derive(Clone, Copy, Debug, PartialEq, Eq)]
pub enum Comparisons {
    One(Comparison),
    Two(Comparison, Comparison),
    Three(Comparison, Comparison, Comparison),
}

/// What is done each time that a patched site is reached.
#[derive(Clone, Copy, Debug, PartialEq, Eq)]
pub enum Action {
    /// Marks the site as reached: its byte becomes 1.
    Cover,
    /// Counts how often the site is reached, modulo 2^64.
    Count,
    /// Keeps the numbers of the last `len` events: from 1 to 65,536 of them.
    Ring { len: u32 },
    /// Does what its base does where all comparisons hold, and otherwise nothing.
    When { base: Base, list: Comparisons },
}

impl Base {
    /// How many bytes the private range needs for so many sites.
    fn private_len(&self, sites: u32) -> u64
        ensures value { result ≡ actions.base_len self.now sites }
        ensures few { result < 2 ^ 36 }
    {
        match self {
            Base::Cover => u64::from(DATA_AT) + u64::from(sites),
            Base::Count => u64::from(DATA_AT) + u64::from(COUNTER_LEN) * u64::from(sites),
        }
    }
}

impl Action {
    /// How many bytes the private range needs for so many sites.
    pub fn private_len(&self, sites: u32) -> u64
        ensures value { result ≡ actions.private_len self.now sites }
        ensures few { result < 2 ^ 36 }
    {
        match self {
            Action::Cover => u64::from(DATA_AT) + u64::from(sites),
            Action::Count => u64::from(DATA_AT) + u64::from(COUNTER_LEN) * u64::from(sites),
            Action::Ring { len } => u64::from(DATA_AT + SLOT_LEN)
                + u64::from(SLOT_LEN) * u64::from(*len),
            Action::When { base, .. } => base.private_len(sites),
        }
    }
}
