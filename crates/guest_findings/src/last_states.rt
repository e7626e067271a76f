//! The last states of a guest's run and of its patched file's.
ghost use Rattle.std.specs.Prelude.{◌≡◌, ◌↔◌, ◌≤◌, true};
ghost use Rattle.image_step.specs.Running.{machine_in};
ghost use Rattle.guest_findings.specs.Findings.{counter, counters};
ghost use Rattle.guest_findings.specs.SeenAlike.{SeenAlike};
ghost use Rattle.guest_findings.specs.Generating.{HaveSameData};

use guest_gen::DATA_START;
use image_step::runner::Runner;
use pun_base::limits::{COUNTER_LEN, DATA_AT, PAGE_LEN};

/// The first address of the page of data.
const DATA: u64 = DATA_START as u64;

/// The first address behind it.
const DATA_END: u64 = DATA + PAGE_LEN as u64;

/// Whether two runs stand in states that look alike.
pub fn are_alike(one: &Runner<'_>, other: &Runner<'_>) -> bool
    ensures { (result ≡ true) ↔ SeenAlike (machine_in one.now) (machine_in other.now) }
{
    if one.state().core() != other.state().core() {
        return false;
    }
    if one.state().rip != other.state().rip {
        return false;
    }
    if one.left() != other.left() {
        return false;
    }
    have_same_data(one, other)
}

/// Whether the page of data has the same bytes.
fn have_same_data(one: &Runner<'_>, other: &Runner<'_>) -> bool
    ensures { (result ≡ true) ↔ HaveSameData (machine_in one.now) (machine_in other.now) }
{
    for addr in DATA..DATA_END {
        if one.state().load(addr, 1) != other.state().load(addr, 1) {
            return false;
        }
    }
    true
}

/// The sum of the counters of so many sites, which stand 64 bytes behind the private range's start.
pub fn sum_counters(runner: &Runner<'_>, private: u32, sites: usize) -> u64
    requires { sites ≤ 250 }
    ensures { result ≡ counters (machine_in runner.now) private sites }
{
    let mut sum: u64 = 0;
    for site in 0..sites {
        sum = sum.wrapping_add(counter(runner, private, site));
    }
    sum
}

/// The counter of a site, and 0 where it can't be read.
fn counter(runner: &Runner<'_>, private: u32, site: usize) -> u64
    requires { site ≤ 250 }
    ensures { result ≡ counter (machine_in runner.now) private site }
{
    let addr = u64::from(private) + DATA_AT as u64 + COUNTER_LEN as u64 * site as u64;
    runner.state().load(addr, 8).unwrap_or(0)
}
