//! What has been read of a script.
ghost use Rattle.std.specs.Prelude.{◌≡◌, length};

use crate::word_reading::NAMES;
use cpu_state::script_regions::Region;
use cpu_state::world::{Entry, MemWrite, Question};

/// An entry that goes on: what is asked, what is given to each name, and what is written.
#[derive(Drop)]
pub(crate) struct Current {
    pub question: Question,
    pub given: [Option<u64>; NAMES],
    pub writes: Vec<MemWrite>,
    pub ghost named: { length given ≡ 19 },
}

/// What has been read: values by the order of their names, regions, entries.
#[derive(Drop)]
pub(crate) enum Draft {
    Blank,
    /// The version and fewer than nineteen values.
    Heads(Vec<u64>),
    /// All values, and regions.
    Body(Vec<u64>, Vec<Region>),
    /// Those, entries and the one that goes on.
    Asked(Vec<u64>, Vec<Region>, Vec<Entry>, Current),
    /// A script with its last line.
    Done(Vec<u64>, Vec<Region>, Vec<Entry>),
}
