//! Lines of a script.
use cpu_state::script_regions::Region;
use cpu_state::world::{MemWrite, Question};

/// A line of a script, by its first word. Names are told by their places: the registers 0 to 15, the flags word, fs and gs.
#[derive(Debug, Drop)]
pub(crate) enum Line {
    /// `e9world 1`
    Version,
    /// The value of a name at the start.
    Value { name: usize, value: u64 },
    Region(Region),
    Ask(Question),
    /// What the answer gives to a name.
    Set { name: usize, value: u64 },
    Mem(MemWrite),
    End,
}
