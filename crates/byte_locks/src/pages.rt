//! Pages of locks in ascending order.
ghost use Rattle.std.specs.Prelude.{◌≡◌, ℕ, ◌+◌, ◌≤◌, length, vec_len, vec_capacity, MatchResult, IfErr};
ghost use Rattle.byte_locks.specs.Locking.{with_lock, punned};
ghost use Rattle.byte_locks.specs.Pages.{lock_among, Ascending, count_lower, HasNumber, IsMissing};

use crate::blank_page::BlankPage;
use crate::lock::Lock;
use crate::page::Page;
use pun_base::limits::PAGE_LEN;

/// How many pages have lower numbers; these come first.
fn count_before(pages: &[Page], number: u32) -> usize
    requires { Ascending 0 pages.now }
    ensures value { result ≡ count_lower pages.now number }
    ensures bound { result ≤ length pages.now }
{
    pages.partition_point(|page| page.number < number)
}

/// The place of the page with a number, or where such a page belongs.
fn find_page(pages: &[Page], number: u32) -> Result<usize, usize>
    requires { Ascending 0 pages.now }
    ensures place { MatchResult result (HasNumber pages.now number) (IsMissing pages.now number) }
    ensures bound { IfErr result (λ place. place ≤ length pages.now) }
{
    let place = count_before(pages, number);
    if place < pages.len() && pages[place].number == number {
        Ok(place)
    } else {
        Err(place)
    }
}

/// The lock of the byte at an address.
pub(crate) fn lock_at(pages: &[Page], addr: u32) -> Lock
    requires { Ascending 0 pages.now }
    ensures { result ≡ lock_among pages.now addr }
{
    match find_page(pages, addr / PAGE_LEN) {
        Ok(place) => pages[place].at((addr % PAGE_LEN) as usize),
        Err(_) => Lock::Free,
    }
}

/// The place of the page with a number. Where there is none yet, a blank page becomes it.
fn place_page(pages: &mut Vec<Page>, blank: &mut Vec<BlankPage>, number: u32) -> usize
    requires ascending { Ascending 0 pages.old.items }
    requires room { vec_len pages.old + vec_len blank.old ≤ vec_capacity pages.old }
    requires blank { 1 ≤ vec_len blank.old }
    ensures locks { (a : ℕ) → lock_among pages.new.items a ≡ lock_among pages.old.items a }
    ensures ascending { Ascending 0 pages.new.items }
    ensures room { vec_len pages.new + vec_len blank.new ≤ vec_capacity pages.new }
    ensures spare { vec_len blank.old ≤ vec_len blank.new + 1 }
    ensures place { HasNumber pages.new.items number result }
{
    match find_page(pages, number) {
        Ok(place) => place,
        Err(place) => {
            let page = blank.pop().unwrap().numbered(number);
            pages.insert(place, page).unwrap();
            place
        }
    }
}

/// Locks the byte at an address, which has a value from now on.
pub(crate) fn change(pages: &mut Vec<Page>, blank: &mut Vec<BlankPage>, addr: u32, value: u8)
    requires ascending { Ascending 0 pages.old.items }
    requires room { vec_len pages.old + vec_len blank.old ≤ vec_capacity pages.old }
    requires blank { 1 ≤ vec_len blank.old }
    ensures locks { (a : ℕ) → lock_among pages.new.items a
        ≡ with_lock (lock_among pages.old.items) addr (Lock.Changed value) a }
    ensures ascending { Ascending 0 pages.new.items }
    ensures room { vec_len pages.new + vec_len blank.new ≤ vec_capacity pages.new }
    ensures spare { vec_len blank.old ≤ vec_len blank.new + 1 }
{
    let place = place_page(pages, blank, addr / PAGE_LEN);
    pages[place].change((addr % PAGE_LEN) as usize, value);
}

/// Locks the byte at an address as it stands.
pub(crate) fn pun(pages: &mut Vec<Page>, blank: &mut Vec<BlankPage>, addr: u32)
    requires ascending { Ascending 0 pages.old.items }
    requires room { vec_len pages.old + vec_len blank.old ≤ vec_capacity pages.old }
    requires blank { 1 ≤ vec_len blank.old }
    ensures locks { (a : ℕ) → lock_among pages.new.items a
        ≡ with_lock (lock_among pages.old.items) addr (punned (lock_among pages.old.items addr)) a }
    ensures ascending { Ascending 0 pages.new.items }
    ensures room { vec_len pages.new + vec_len blank.new ≤ vec_capacity pages.new }
    ensures spare { vec_len blank.old ≤ vec_len blank.new + 1 }
{
    let place = place_page(pages, blank, addr / PAGE_LEN);
    pages[place].pun((addr % PAGE_LEN) as usize);
}
