//! What an operation changes, and where it goes on.
ghost use Rattle.std.specs.Prelude.{◌≡◌, None, Some};

use cpu_alu::Flags;

/// A register and the number that it gets.
#[derive(Clone, Copy)]
pub(crate) struct Put {
    pub(crate) code: u8,
    pub(crate) value: u64,
}

/// What an operation changes, and where the run goes on.
#[derive(Clone, Copy)]
pub(crate) struct Changes {
    /// A register that changes.
    pub(crate) first: Option<Put>,
    /// One that changes after it.
    pub(crate) second: Option<Put>,
    /// The flags, where they change.
    pub(crate) flags: Option<Flags>,
    /// Where the run goes on, if not at the next instruction.
    pub(crate) target: Option<u64>,
    /// What is written, where something is.
    pub(crate) value: u64,
    /// The flags that the manual leaves undefined, as in `Out`.
    pub(crate) undefined: u8,
}

/// One register changes at most, and the run goes on at the next instruction.
pub(crate) fn to_next(put: Option<Put>, value: u64) -> Changes
    ensures { result ≡ record {
      first = put;
      second = None;
      flags = None;
      target = None;
      value = value;
      undefined = 0;
    } }
{
    Changes {
        first: put,
        second: None,
        flags: None,
        target: None,
        value,
        undefined: 0,
    }
}

/// One register changes at most, and the run goes on at an address.
pub(crate) fn to_target(target: u64, put: Option<Put>, value: u64) -> Changes
    ensures { result ≡ record {
      first = put;
      second = None;
      flags = None;
      target = Some target;
      value = value;
      undefined = 0;
    } }
{
    Changes {
        first: put,
        second: None,
        flags: None,
        target: Some(target),
        value,
        undefined: 0,
    }
}

/// Two registers change, and the run goes on at the next instruction.
pub(crate) fn twice_to_next(first: Option<Put>, second: Option<Put>, value: u64) -> Changes
    ensures { result ≡ record {
      first = first;
      second = second;
      flags = None;
      target = None;
      value = value;
      undefined = 0;
    } }
{
    Changes {
        first,
        second,
        flags: None,
        target: None,
        value,
        undefined: 0,
    }
}

/// The flags change, and the run goes on at the next instruction.
pub(crate) fn flags_to_next(flags: Flags) -> Changes
    ensures { result ≡ record {
      first = None;
      second = None;
      flags = Some flags;
      target = None;
      value = 0;
      undefined = 0;
    } }
{
    Changes {
        first: None,
        second: None,
        flags: Some(flags),
        target: None,
        value: 0,
        undefined: 0,
    }
}
