//! What a file loads at an address.
ghost use Rattle.std.specs.Prelude.{◌≡◌, option_map};
ghost use Rattle.elf_read.specs.Image.{image_of};
ghost use Rattle.image_check.specs.Parts.{cell_of};
ghost use Rattle.sound_images.specs.Rules as rules;

use elf_read::elf::Elf;

/// A byte that a file loads, and its permissions: 4 reads, 2 writes, 1 executes.
#[derive(Clone, Copy, Debug, PartialEq, Eq)]
pub struct LoadedByte {
    pub byte: u8,
    pub perms: u32,
}

/// What a file loads at an address.
pub fn loaded_at(elf: &Elf<'_>, addr: u64) -> Option<LoadedByte>
    ensures { option_map cell_of result ≡ image_of elf.now.bytes addr }
{
    let byte = elf.byte(addr)?;
    let perms = elf.perms(addr)?;
    Some(LoadedByte { byte, perms })
}

/// Whether the patched file lacks what the original loads, or has it with other permissions, or has
/// another byte that isn't written.
pub(crate) fn differ(was: Option<LoadedByte>, now: Option<LoadedByte>, written: bool) -> bool
    ensures { result ≡ rules.differs (option_map cell_of was) (option_map cell_of now) written }
{
    let Some(was) = was else {
        return false;
    };
    let Some(now) = now else {
        return true;
    };
    was.perms != now.perms || (!written && was.byte != now.byte)
}

/// Whether this byte is loaded, with any permissions.
pub(crate) fn holds_byte(cell: Option<LoadedByte>, byte: u8) -> bool
    ensures { result ≡ rules.holds_byte (option_map cell_of cell) byte }
{
    match cell {
        None => false,
        Some(cell) => cell.byte == byte,
    }
}
