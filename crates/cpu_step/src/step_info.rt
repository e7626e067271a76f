//! What a step tells.
ghost use Rattle.std.specs.Prelude.{◌≡◌, ◌≤◌, length};
ghost use Rattle.cpu_step.specs.Facts.{access_list, told_info};
ghost use Rattle.cpu_step.specs.Steps.{accesses};

use crate::stop::Stop;
use arrayvec::ArrayVec;
use insn_form::Span;
use std::marker::Model;

/// Accesses to memory: the address and the number of bytes of each, at most two. Addresses come round after the last one.
#[derive(Debug, PartialEq, Eq, Drop)]
pub struct AccessList {
    spans: ArrayVec<(u64, u8), 2>,
}

impl Model for AccessList {
    ghost use Rattle.std.specs.Prelude.{ℕ, List};

    ghost Value = { List (ℕ × ℕ) };

    ghost view = { λ a. a.spans.items };

    ghost inverse = { λ xs. record { spans = record { items = xs } } };
}

impl AccessList {
    /// The accesses, in order.
    pub fn as_slice(&self) -> &[(u64, u8)]
        ensures value { result.now ≡ self.now }
        ensures fits { length result.now ≤ 2 }
    {
        self.spans.as_slice()
    }
}

/// What a step did beside the state that it left.
#[derive(Debug, PartialEq, Eq, Drop)]
pub struct StepInfo {
    /// Whether the world's next entry was used up.
    pub used: bool,
    /// What was read as data.
    pub reads: AccessList,
    /// What was written as data, but for an answer's writes.
    pub writes: AccessList,
    /// Whether an answer of the world wrote.
    pub answer_wrote: bool,
}

/// One access to memory or none.
#[derive(Clone, Copy, Debug, PartialEq, Eq)]
pub struct Access {
    pub addr: u64,
    pub size: u8,
    pub is_made: bool,
}

/// What a step did, as in `StepInfo`, with one access at most in place of each list.
#[derive(Clone, Copy, Debug, PartialEq, Eq)]
pub struct StepFacts {
    pub read: Access,
    pub write: Access,
    pub used: bool,
    pub answer_wrote: bool,
}

/// The access to these bytes.
pub(crate) fn access_to(span: Option<Span>) -> Access
    ensures { access_list result ≡ accesses span }
{
    match span {
        Some(span) => Access {
            addr: span.addr,
            size: span.size,
            is_made: true,
        },
        None => Access {
            addr: 0,
            size: 0,
            is_made: false,
        },
    }
}

impl Access {
    /// As a list.
    fn list(&self) -> AccessList
        ensures { result ≡ access_list self.now }
    {
        let mut spans = ArrayVec::new();
        if self.is_made {
            spans.push((self.addr, self.size));
        }
        AccessList { spans }
    }
}

/// What a step told, with lists.
pub(crate) fn with_lists(told: Result<StepFacts, Stop>) -> Result<StepInfo, Stop>
    ensures { result ≡ told_info told }
{
    match told {
        Ok(facts) => Ok(StepInfo {
            used: facts.used,
            reads: facts.read.list(),
            writes: facts.write.list(),
            answer_wrote: facts.answer_wrote,
        }),
        Err(stop) => Err(stop),
    }
}
