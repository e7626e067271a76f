//! Ranges of free addresses.

/// The free addresses from `lo` up to and without `hi`.
#[derive(Clone, Copy, Debug, PartialEq, Eq)]
pub struct FreeRange {
    pub lo: u32,
    pub hi: u32,
}
