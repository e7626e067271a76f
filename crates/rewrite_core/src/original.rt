//! What the original of a patch was.
ghost use Rattle.std.specs.Prelude.{◌≡◌};
ghost use Rattle.patch_report.specs.Grammar.{OriginFits};
ghost use Rattle.rewrite_core.specs.Origins.{origin_of};

use elf_read::elf::Elf;
use patch_report::origin::Origin;

/// What the original is: the length of the file, and `e_phoff`, `e_phnum` and `e_entry` of its
/// header.
pub fn origin_of(elf: &Elf<'_>) -> Origin
    ensures value { result ≡ origin_of elf.now.bytes }
    ensures fits { OriginFits result }
{
    Origin {
        len: elf.file().len() as u64,
        phoff: elf.table_place(),
        phnum: elf.table_count(),
        entry: elf.entry(),
    }
}
