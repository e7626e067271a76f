//! What is made before it is needed, so that a later call takes no memory.
ghost use Rattle.std.specs.Prelude.{◌≡◌, ◌≤◌, vec_len, max, OnOk, OnErr};

use std::alloc::{AllocError, Global};

/// What can be made before it is known what it will hold.
pub trait Blank: Sized + Drop {
    fn blank(alloc: Global) -> Result<Self, AllocError>;
}

/// Makes blanks until there are so many.
fn fill<B: Blank>(blanks: &mut Vec<B>, alloc: Global, count: usize) -> Result<(), AllocError>
    ensures enough { OnOk result (count ≤ vec_len blanks.new) }
    ensures least { vec_len blanks.old ≤ vec_len blanks.new }
    ensures most { vec_len blanks.new ≤ max count (vec_len blanks.old) }
{
    for _ in blanks.len()..count {
        blanks.push(B::blank(alloc)?)?;
    }
    Ok(())
}

/// Makes blanks until there are so many, or keeps as many as there were.
pub fn prepare<B: Blank>(blanks: &mut Vec<B>, alloc: Global, count: usize) -> Result<(), AllocError>
    ensures enough { OnOk result (count ≤ vec_len blanks.new) }
    ensures most { vec_len blanks.new ≤ max count (vec_len blanks.old) }
    ensures refused { OnErr result (vec_len blanks.new ≡ vec_len blanks.old) }
{
    let kept = blanks.len();
    let filled = fill(blanks, alloc, count);
    if filled.is_err() {
        blanks.truncate(kept);
    }
    filled
}
