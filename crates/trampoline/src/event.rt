//! Events.
ghost use Rattle.std.specs.Prelude.{◌≡◌, ◌≤◌};
ghost use Rattle.trampoline.specs.Events.{event_length};

use pun_base::action::{Action, Comparisons};

/// What a trampoline records: an action at the site of a number.
#[derive(Clone, Copy, Debug, PartialEq, Eq)]
pub struct Event {
    pub action: Action,
    /// Sites are numbered from 0 in ascending order of their addresses.
    pub number: u32,
}

/// Bytes of an event's code: 8, 36, 77, or 53 and 9 for each comparison.
pub fn event_size(action: Action) -> u32
    ensures value { result ≡ event_length action }
    ensures few { result ≤ 80 }
{
    match action {
        Action::Cover => 8,
        Action::Count => 36,
        Action::Ring { .. } => 77,
        Action::When { list, .. } => match list {
            Comparisons::One(..) => 62,
            Comparisons::Two(..) => 71,
            Comparisons::Three(..) => 80,
        },
    }
}
