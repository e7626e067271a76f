//! A site at its turn.
ghost use Rattle.std.specs.Prelude.{◌≡◌, ◌+◌, ◌≤◌};
ghost use Rattle.start_list.specs.Sites.{IsSite};
ghost use Rattle.scheme_search.specs.SiteTurns.{StandsIn};

use crate::work::work_size;
use elf_read::segment::Segment;
use pun_base::limits::JUMP_LEN;
use start_entries::entry::StartEntry;
use start_list::turn::Turn;

/// The most bytes of a site into which no jump fits.
pub const SHORT: u8 = JUMP_LEN - 1;

/// A site at its turn: the segment of code in which it stands, and how many bytes the code has that
/// does its work elsewhere.
#[derive(Clone, Copy)]
pub struct SiteTurn<'a> {
    pub turn: Turn<'a>,
    pub site: StartEntry,
    pub segment: Segment,
    pub work: u32,
    pub ghost stands: { StandsIn turn site segment work },
}

impl<'a> SiteTurn<'a> {
    /// A site of a turn.
    pub fn new(turn: &Turn<'a>, site: &StartEntry) -> SiteTurn<'a>
        requires { IsSite turn.now site.now }
        ensures turn { result.turn ≡ turn.now }
        ensures site { result.site ≡ site.now }
    {
        let segment = turn.code_segment(site.addr).unwrap();
        let work = work_size(site).unwrap();
        SiteTurn {
            turn: *turn,
            site: *site,
            segment,
            work,
        }
    }

    /// How many bytes the site's trampoline has.
    pub fn tramp_size(&self) -> u32
        ensures value { result ≡ self.now.turn.event_size + self.now.work }
        ensures sized { (1 ≤ result) × (result ≤ 131) }
    {
        self.turn.event_size + self.work
    }
}
