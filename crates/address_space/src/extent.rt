//! Runs of addresses that may end at 2^32.
ghost use Rattle.std.specs.Prelude.{◌≡◌};
ghost use Rattle.address_space.specs.Free.{extent_of, whole_pages};

use pun_base::limits::PAGE_LEN;
use pun_base::range::Range;

/// The addresses from `lo` up to and without `hi`.
#[derive(Clone, Copy, Debug, PartialEq, Eq)]
pub struct Extent {
    pub lo: u64,
    pub hi: u64,
}

impl Extent {
    /// The addresses of a range.
    pub fn of_range(range: Range) -> Extent
        ensures { result ≡ extent_of range }
    {
        Extent {
            lo: u64::from(range.lo),
            hi: u64::from(range.hi),
        }
    }

    /// The pages that meet a range.
    pub fn of_pages(range: Range) -> Extent
        ensures { result ≡ whole_pages range }
    {
        let page = PAGE_LEN as u64;
        Extent {
            lo: u64::from(range.lo) / page * page,
            hi: u64::from(range.hi).div_ceil(page) * page,
        }
    }
}
