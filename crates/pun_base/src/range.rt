//! Ranges of addresses.
ghost use Rattle.std.specs.Prelude.{◌<◌};

/// The addresses from `lo` up to and without `hi`.
#[derive(Clone, Copy, Debug, PartialEq, Eq)]
pub struct Range {
    pub lo: u32,
    pub hi: u32,
    ghost nonempty: { lo < hi },
}
