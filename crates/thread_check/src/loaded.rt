//! Code that a patched file loads where its original loads nothing.
ghost use Rattle.std.specs.Prelude.{◌≡◌, ◌+◌, ◌<◌, ◌^◌, length, is_some, option_map};
ghost use Rattle.elf_read.specs.Image.{image_of};
ghost use Rattle.image_check.specs.Parts.{cell_of};
ghost use Rattle.thread_check.specs.LineParts as parts;

use elf_read::elf::Elf;
use image_check::cells::{LoadedByte, loaded_at};

/// Whether a file loads a byte at an address.
pub(crate) fn is_loaded(elf: &Elf<'_>, addr: u64) -> bool
    ensures { result ≡ is_some (image_of elf.now.bytes addr) }
{
    loaded_at(elf, addr).is_some()
}

/// Whether this byte is loaded, R-X, where the original loads none.
fn is_new_code(was: Option<LoadedByte>, now: Option<LoadedByte>, byte: u8) -> bool
    ensures { result ≡ parts.is_new_code (option_map cell_of was) (option_map cell_of now) byte }
{
    let None = was else {
        return false;
    };
    match now {
        None => false,
        Some(cell) => cell.byte == byte && cell.perms == 5,
    }
}

/// The first address, from a place on, at which a byte of code isn't loaded, R-X, or the original
/// loads one.
pub(crate) fn first_broken(
    orig: &Elf<'_>,
    patched: &Elf<'_>,
    place: u64,
    code: &[u8],
) -> Option<u64>
    requires { place + length code.now < 2 ^ 64 }
    ensures { result ≡ parts.first_broken (image_of orig.now.bytes) (image_of patched.now.bytes)
        place code.now }
{
    let mut left = code;
    let mut addr = place;
    while let Some((byte, later)) = left.split_first() {
        let was = loaded_at(orig, addr);
        let now = loaded_at(patched, addr);
        if !is_new_code(was, now, *byte) {
            return Some(addr);
        }
        addr += 1;
        left = later;
    }
    None
}
