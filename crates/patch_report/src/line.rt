//! Lines of a report.
ghost use Rattle.std.specs.Prelude.{◌≡◌};
ghost use Rattle.patch_report.specs.Grammar.{is_told};

use crate::origin::{Origin, Version};
use pun_base::action::Action;
use pun_base::byte_list::ByteList;
use pun_base::pun::Pun;
use pun_base::scheme::Scheme;
use pun_base::tramp::Tramp;

/// The outcome that a site's line names.
#[derive(Clone, Copy, Debug, PartialEq, Eq)]
pub(crate) enum Mark {
    Patched(Scheme),
    NotRelocatable,
    NoPlan,
    Shared,
}

/// Whether a version has a word for an outcome: the first has none for an instruction that shares
/// bytes.
pub(crate) fn is_told(mark: Mark, version: Version) -> bool
    ensures { result ≡ is_told mark version }
{
    match mark {
        Mark::Patched(_) | Mark::NotRelocatable | Mark::NoPlan => true,
        Mark::Shared => match version {
            Version::One => false,
            Version::Two => true,
        },
    }
}

/// A line of a report, by its first word.
#[derive(Debug, Drop)]
pub(crate) enum Line {
    /// `e9report` and the version.
    Version(Version),
    /// The original's length, and of its header `e_phoff`, `e_phnum` and `e_entry`.
    Origin(Origin),
    Action(Action),
    /// The private range, from `lo` up to and without `hi`.
    Private {
        lo: u32,
        hi: u32,
    },
    /// How many sites there are.
    Sites(u32),
    Site {
        site: u32,
        number: u32,
        outcome: Mark,
    },
    Tramp(Tramp),
    Write {
        addr: u32,
        was: ByteList,
        now: ByteList,
    },
    Pun(Pun),
    Page {
        page: u32,
        group: u32,
    },
    End,
}
