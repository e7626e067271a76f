//! What each scheme answers at a turn.
mod answers;
mod given;

use answers::{marks, planned, spelled};
use given::read_turn;
use std::alloc::Global;

/// What is told of a turn: a digit for each start, and the answers, if the site shares no bytes; nothing where the words tell no turn.
pub fn told(alloc: Global, words: &[&str], threads: bool) -> Option<String> {
    let given = read_turn(alloc, words, threads)?;
    let mut text = marks(alloc, &given)?;
    if let Some(plans) = planned(alloc, &given) {
        for plan in &plans {
            text.push(' ').ok()?;
            text.push_str(spelled(alloc, plan)?.as_str()).ok()?;
        }
    }
    Some(text)
}
