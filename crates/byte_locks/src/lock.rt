//! The lock of one byte.

/// What was done with one byte of the program (Duck, Gao, Roychoudhury, PLDI 2020: bytes are locked as patches use them).
///
/// A byte is `Free` until a patch uses it. A `Punned` byte is read as a part of a jump and stands as it did. A `Changed` byte was
/// written and has this value from then on, which may be the value that it had. Neither is written again.
#[derive(Clone, Copy, Debug, PartialEq, Eq)]
pub enum Lock {
    Free,
    Punned,
    Changed(u8),
}
