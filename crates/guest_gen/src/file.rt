//! The file of a guest: a text that can be read and executed, and a page of data that can be read and written.
ghost use Rattle.std.specs.Prelude.{◌≡◌, IfOk};
ghost use Rattle.guest_gen.specs.Files.{file_of};

use crate::instruction::{BLOCKS_START, DATA_START, TEXT_START};
use elf_read::segment::{PF_R, PF_W, PF_X, Segment};
use elf_read::writing::{self, TEXT_PLACE};
use pun_base::limits::PAGE_LEN;
use std::alloc::{AllocError, Global};

/// The file of a text.
pub(crate) fn file_of(alloc: Global, text: &[u8]) -> Result<Vec<u8>, AllocError>
    ensures { IfOk result (λ file. file.items ≡ file_of text.now) }
{
    let start = u64::from(TEXT_START);
    let code = writing::load_entry(PF_R | PF_X, TEXT_PLACE as u64, start, text.len() as u64);
    let data = Segment {
        filesz: 0,
        ..writing::load_entry(PF_R | PF_W, 0, u64::from(DATA_START), PAGE_LEN as u64)
    };
    writing::file_with(
        alloc,
        u64::from(BLOCKS_START),
        &[code, data],
        TEXT_PLACE,
        text,
    )
}
