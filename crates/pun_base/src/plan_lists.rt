//! The short lists of a plan.
ghost use Rattle.std.specs.Prelude.{◌≡◌, ◌<◌, ◌≤◌, [], ◌∷◌, ◌++◌, length};

use crate::byte_list::ByteList;
use crate::plan::Write;
use crate::pun::Pun;
use crate::tramp::Tramp;
use arrayvec::ArrayVec;
use std::marker::Model;

/// At most two trampolines.
#[derive(Debug, PartialEq, Eq, Drop)]
pub struct TrampList {
    items: ArrayVec<Tramp, 2>,
}

impl Model for TrampList {
    ghost use Rattle.std.specs.Prelude.{List};
    ghost use Rattle.pun_base.specs.declared.tramp.Tramp.{Tramp};

    ghost Value = { List Tramp };

    ghost view = { λ l. l.items.items };

    ghost inverse = { λ xs. record { items = record { items = xs } } };
}

impl TrampList {
    /// No trampoline.
    pub fn new() -> Self
        ensures { result ≡ [] }
    {
        TrampList {
            items: ArrayVec::new(),
        }
    }

    /// Appends a trampoline.
    pub fn push(&mut self, tramp: Tramp)
        requires room { length self.old < 2 }
        ensures { self.new ≡ self.old ++ tramp ∷ [] }
    {
        self.items.push(tramp);
    }

    /// The trampolines, in order.
    pub fn as_slice(&self) -> &[Tramp]
        ensures value { result.now ≡ self.now }
        ensures fits { length result.now ≤ 2 }
    {
        self.items.as_slice()
    }
}

/// At most three writes.
#[derive(Debug, PartialEq, Eq, Drop)]
pub struct WriteList {
    items: ArrayVec<Write, 3>,
}

impl Default for Write {
    /// One zero byte at address 0 that stays.
    fn default() -> Write {
        Write {
            addr: 0,
            was: ByteList::from_slice(&[0]),
            now: ByteList::from_slice(&[0]),
        }
    }
}

impl Model for WriteList {
    ghost use Rattle.std.specs.Prelude.{List};
    ghost use Rattle.pun_base.specs.declared.plan.Write.{Write};

    ghost Value = { List Write };

    ghost view = { λ l. l.items.items };

    ghost inverse = { λ xs. record { items = record { items = xs } } };
}

impl WriteList {
    /// No write.
    pub fn new() -> Self
        ensures { result ≡ [] }
    {
        WriteList {
            items: ArrayVec::new(),
        }
    }

    /// Appends a write.
    pub fn push(&mut self, write: Write)
        requires room { length self.old < 3 }
        ensures { self.new ≡ self.old ++ write ∷ [] }
    {
        self.items.push(write);
    }

    /// The writes, in order.
    pub fn as_slice(&self) -> &[Write]
        ensures value { result.now ≡ self.now }
        ensures fits { length result.now ≤ 3 }
    {
        self.items.as_slice()
    }
}

/// At most three runs of punned bytes.
#[derive(Debug, PartialEq, Eq, Drop)]
pub struct PunList {
    items: ArrayVec<Pun, 3>,
}

impl Model for PunList {
    ghost use Rattle.std.specs.Prelude.{List};
    ghost use Rattle.pun_base.specs.declared.pun.Pun.{Pun};

    ghost Value = { List Pun };

    ghost view = { λ l. l.items.items };

    ghost inverse = { λ xs. record { items = record { items = xs } } };
}

impl PunList {
    /// No punned byte.
    pub fn new() -> Self
        ensures { result ≡ [] }
    {
        PunList {
            items: ArrayVec::new(),
        }
    }

    /// Appends a run.
    pub fn push(&mut self, pun: Pun)
        requires room { length self.old < 3 }
        ensures { self.new ≡ self.old ++ pun ∷ [] }
    {
        self.items.push(pun);
    }

    /// The runs, in order.
    pub fn as_slice(&self) -> &[Pun]
        ensures value { result.now ≡ self.now }
        ensures fits { length result.now ≤ 3 }
    {
        self.items.as_slice()
    }
}
