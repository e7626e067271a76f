//! Bytes that are put back at the places that a file's segments tell.
ghost use Rattle.std.specs.Prelude.{◌≡◌, map};
ghost use Rattle.patch_report.specs.Values.{write_value};
ghost use Rattle.unpatch.specs.Undone.{addressed, old_bytes, place_in, place_of, put_at, put_back};

use elf_read::elf::Elf;
use elf_read::segment::Segment;
use pun_base::plan::Write;

/// Where a segment has the byte of an address in its file.
pub(crate) fn place_in(segment: &Segment, addr: u64) -> u128
    ensures { result ≡ place_in addr segment.now }
{
    u128::from(segment.offset) + u128::from(addr.saturating_sub(segment.vaddr))
}

/// Puts a byte at the place that the file has for an address, where that is a place of `bytes`.
fn put_at(bytes: &mut [u8], patched: &Elf<'_>, addr: u64, byte: u8)
    ensures { bytes.new ≡ put_at (place_of patched.now.bytes addr) byte bytes.old }
{
    if let Some(segment) = patched.segment_at(addr) {
        let place = place_in(&segment, addr);
        if place < bytes.len() as u128 {
            bytes[place as usize] = byte;
        }
    }
}

/// Puts the old bytes of a run back.
fn put_run(bytes: &mut [u8], patched: &Elf<'_>, run: &Write)
    ensures { bytes.new ≡ put_back patched.now.bytes (addressed run.entry.now.addr run.entry.now.was) bytes.old }
{
    let was = run.was.as_slice();
    for (i, byte) in was.iter().enumerate() {
        put_at(bytes, patched, u64::from(run.addr) + i as u64, *byte);
    }
}

/// Puts the old bytes of runs back, in their order.
pub(crate) fn put_runs(bytes: &mut [u8], patched: &Elf<'_>, runs: &[Write])
    ensures { bytes.new ≡ put_back patched.now.bytes (old_bytes (map write_value runs.now)) bytes.old }
{
    for run in runs {
        put_run(bytes, patched, run);
    }
}
