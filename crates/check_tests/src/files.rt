//! Files by their tables.
use elf_read::header::{E_PHNUM, E_PHOFF};
use elf_read::writing::{self, load_entry, push_entry};
use std::alloc::{AllocError, Global};

/// A PT_LOAD: flags, offset, address and size.
pub type Load = (u8, u64, u64, u64);

/// Writes bytes over those of a file.
pub fn put(file: &mut Vec<u8>, at: usize, bytes: &[u8]) {
    for (index, value) in bytes.iter().enumerate() {
        if let Some(byte) = file.get_mut(at.saturating_add(index)) {
            *byte = *value;
        }
    }
}

/// A number of eight bytes over those of a file.
pub fn put_number(file: &mut Vec<u8>, at: usize, number: u64) {
    put(file, at, &number.to_le_bytes());
}

/// A file of so many bytes that is entered at 0x401000, with this table at a place.
pub fn file_of(
    alloc: Global,
    len: usize,
    table: usize,
    loads: &[Load],
) -> Result<Vec<u8>, AllocError> {
    let mut file = writing::file_with(alloc, 0x40_1000, &[], table, &[])?;
    put_number(&mut file, E_PHOFF, table as u64);
    put_number(&mut file, E_PHNUM, loads.len() as u64);
    for (flags, offset, vaddr, size) in loads {
        let entry = load_entry(u32::from(*flags), *offset, *vaddr, *size);
        push_entry(&mut file, &entry)?;
    }
    file.resize(len, 0)?;
    Ok(file)
}

/// The lines of a text that has a semicolon for each line's end.
pub fn lines_of(alloc: Global, words: &str) -> Option<String> {
    let mut text = String::new(alloc);
    for line in words.split_terminator(';') {
        text.push_str(line).ok()?;
        text.push('\n').ok()?;
    }
    Some(text)
}
