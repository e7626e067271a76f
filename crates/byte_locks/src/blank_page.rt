//! Pages that are made beforehand.
ghost use Rattle.std.specs.Prelude.{◌≡◌, ℕ};
ghost use Rattle.byte_locks.specs.declared.lock.Lock.TheVariants.{Free};
ghost use Rattle.byte_locks.specs.Pages.{lock_in};

use crate::page::Page;
use pun_base::blanks::Blank;
use std::alloc::{AllocError, Global};

/// A page with every byte free, which becomes the page of any number.
#[derive(Drop)]
pub(crate) struct BlankPage {
    page: Page,
    ghost free: { (offset : ℕ) → lock_in page offset ≡ Free },
}

impl Blank for BlankPage {
    fn blank(alloc: Global) -> Result<BlankPage, AllocError> {
        let page = Page::blank(alloc)?;
        Ok(BlankPage { page })
    }
}

impl BlankPage {
    /// The page with a number.
    pub(crate) fn numbered(self, number: u32) -> Page
        ensures number { result.number ≡ number }
        ensures free { (offset : ℕ) → lock_in result offset ≡ Free }
    {
        let BlankPage { mut page } = self;
        page.number = number;
        page
    }
}
