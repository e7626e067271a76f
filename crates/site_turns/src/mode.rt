//! What the sites get.
ghost use Rattle.std.specs.Prelude.{◌≡◌, ◌≤◌};
ghost use Rattle.pun_base.specs.Actions.{listed};
ghost use Rattle.start_list.specs.Forms.{can_where};
ghost use Rattle.site_turns.specs.Modes as modes;

use pun_base::action::{Action, Base, Comparison, Comparisons};
use trampoline::event_size;

/// What the sites get: the events of an action, for a guest of one thread, or for one of several threads.
#[derive(Clone, Copy)]
pub enum Mode {
    Events(Action),
    Threads(Action),
}

/// Bytes of an event for a guest of several threads that covers without a condition.
const THREAD_COVER_LEN: u32 = 8;

/// Bytes of one that counts without a condition.
const THREAD_COUNT_LEN: u32 = 32;

/// Bytes of one that keeps a ring.
const THREAD_RING_LEN: u32 = 67;

/// Whether threads can get the events of an action: of a ring where it has 256 or 65,536 slots.
pub fn is_shared(action: Action) -> bool
    ensures { result ≡ modes.is_shared action }
{
    match action {
        Action::Cover | Action::Count | Action::When { .. } => true,
        Action::Ring { len } => len == 256 || len == 65_536,
    }
}

/// The event of a trampoline for a guest of several threads, where it has one.
pub fn thread_event_of(action: Action, event: bool) -> Option<Action>
    ensures { result ≡ modes.thread_event_of action event }
{
    if event { Some(action) } else { None }
}

/// Bytes of an event that saves rax and the flags, but for its comparisons.
fn saving_size(base: Base) -> u32
    ensures value { result ≡ modes.saving_size base }
    ensures few { result ≤ 32 }
{
    match base {
        Base::Cover => 31,
        Base::Count => 32,
    }
}

/// Bytes of a comparison, with the jump that is taken where it fails.
fn check_size(one: Comparison) -> u32
    ensures value { result ≡ modes.check_size one.reg }
    ensures few { result ≤ 14 }
{
    if one.reg == 0 { 14 } else { 9 }
}

/// Bytes of one to three comparisons.
fn checks_size(list: Comparisons) -> u32
    ensures value { result ≡ modes.checks_size (listed list) }
    ensures few { result ≤ 42 }
{
    match list {
        Comparisons::One(a) => check_size(a),
        Comparisons::Two(a, b) => check_size(a) + check_size(b),
        Comparisons::Three(a, b, c) => check_size(a) + check_size(b) + check_size(c),
    }
}

/// Bytes of an event for a guest of several threads.
fn thread_event_size(action: Action) -> u32
    ensures value { result ≡ modes.thread_event_size action }
    ensures few { result ≤ 74 }
{
    match action {
        Action::Cover => THREAD_COVER_LEN,
        Action::Count => THREAD_COUNT_LEN,
        Action::Ring { .. } => THREAD_RING_LEN,
        Action::When { base, list } => saving_size(base) + checks_size(list),
    }
}

impl Mode {
    /// What the private range is laid out for.
    pub fn action(self) -> Action
        ensures { result ≡ modes.action_of self }
    {
        match self {
            Mode::Events(action) | Mode::Threads(action) => action,
        }
    }

    /// Bytes of an event's code.
    pub(crate) fn event_size(self) -> u32
        ensures value { result ≡ modes.event_size_of self }
        ensures few { result ≤ 80 }
    {
        match self {
            Mode::Events(action) => event_size(action),
            Mode::Threads(action) => thread_event_size(action),
        }
    }

    /// Whether threads share the guest's memory, so that only what may be displaced then is.
    pub(crate) fn threads(self) -> bool
        ensures { can_where result ≡ modes.can_of self }
    {
        match self {
            Mode::Events(_) => false,
            Mode::Threads(_) => true,
        }
    }
}
