//! Schemes of patching.

/// How a site is patched (Duck, Gao, Roychoudhury, "Binary Rewriting without Control Flow Recovery", PLDI 2020).
#[derive(Clone, Copy, Debug, PartialEq, Eq)]
pub enum Scheme {
    /// A jump that fits into the instruction.
    B1,
    /// A jump whose last bytes are those of what follows the instruction.
    B2,
    /// The same behind pads.
    T1,
    /// The instruction that follows is patched too.
    T2,
    /// An instruction nearby is patched too.
    T3,
}
