//! A turn as a line of words tells it.
//!
//! The words, with numbers in hexadecimal: the text of the segments of code, with a stroke where one begins, which is at a page; its
//! address; the starts, two digits each, as offsets into the text; the site's place among them; the size of an event's code; the free
//! ranges, each as `LO-HI`, with commas between them, or `-`; and the locks, `OFFSET=VALUE` for a changed byte and `OFFSET` for a punned
//! one, or `-`.
use address_space::space::Space;
use byte_locks::locks::Locks;
use elf_read::segment::{PF_R, PF_X};
use elf_read::writing::{self, load_entry};
use pun_base::limits::PAGE_LEN;
use pun_base::range::Range;
use std::alloc::Global;

/// A file, and what a turn is made of beside it.
#[derive(Drop)]
pub struct Given {
    pub file: Vec<u8>,
    pub starts: Vec<u32>,
    pub place: usize,
    pub event_size: u32,
    pub threads: bool,
    pub space: Space,
    pub locks: Locks,
}

/// Where new code may stand at the lowest, and where such addresses end.
const LOW: u32 = 0x2_0000;

const HIGH: u32 = 0x7FFF_0000;

/// The file of a text at an address, where it is entered; a segment begins at each stroke.
fn file_of(alloc: Global, text: &str, addr: u32) -> Option<Vec<u8>> {
    let place = PAGE_LEN + addr % PAGE_LEN;
    let (start, offset) = (u64::from(addr), u64::from(place));
    let mut entries = Vec::new(alloc);
    let mut text_bytes: Vec<u8> = Vec::new(alloc);
    for part in text.split('/') {
        let bytes = hex::decode(alloc, part).ok()?;
        let done = text_bytes.len() as u64;
        entries
            .push(load_entry(
                PF_R | PF_X,
                done.saturating_add(offset),
                done.saturating_add(start),
                bytes.len() as u64,
            ))
            .ok()?;
        text_bytes.extend_from_slice(&bytes).ok()?;
    }
    let entries = entries.as_slice();
    if entries.len() >= 0x1_0000 {
        return None;
    }
    writing::file_with(alloc, start, entries, place as usize, &text_bytes).ok()
}

fn number(digits: &str) -> Option<u32> {
    u32::from_str_radix(digits, 16).ok()
}

fn starts_of(alloc: Global, addr: u32, offsets: &str) -> Option<Vec<u32>> {
    let mut starts = Vec::new(alloc);
    for offset in hex::decode(alloc, offsets).ok()?.iter() {
        starts.push(addr.saturating_add(u32::from(*offset))).ok()?;
    }
    Some(starts)
}

/// Takes the addresses from one up to and without another, if there are any.
fn take(alloc: Global, space: &mut Space, lo: u32, hi: u32) -> Option<()> {
    if lo >= hi {
        return Some(());
    }
    let size = hi - lo;
    space.reserve(alloc, 1).ok()?;
    let lo = space.least_fit(i64::from(lo), i64::from(lo) + 1, size, None)?;
    space.take(Range { lo, hi: lo + size });
    Some(())
}

/// The space of ascending free ranges.
fn space_of(alloc: Global, ranges: &str) -> Option<Space> {
    let mut space = Space::new(alloc, &[]).ok()?;
    let mut last = LOW;
    for range in ranges.split(',').filter(|range| *range != "-") {
        let (first, end) = range.split_once('-')?;
        take(alloc, &mut space, last, number(first)?)?;
        last = number(end)?;
    }
    take(alloc, &mut space, last, HIGH)?;
    Some(space)
}

fn locks_of(alloc: Global, addr: u32, words: &str) -> Option<Locks> {
    let mut locks = Locks::new(alloc);
    for word in words.split(',').filter(|word| *word != "-") {
        locks.reserve(alloc, 1).ok()?;
        match word.split_once('=') {
            None => locks.pun(addr.saturating_add(number(word)?)),
            Some((offset, value)) => {
                let at = addr.saturating_add(number(offset)?);
                let value = u8::from_str_radix(value, 16).ok()?;
                if locks.is_free(at) {
                    locks.change(at, value);
                }
            }
        }
    }
    Some(locks)
}

/// What these words tell; nothing where they tell no turn.
pub fn read_turn(alloc: Global, words: &[&str], threads: bool) -> Option<Given> {
    if let [text, addr, offsets, place, event, ranges, locks] = words {
        let addr = number(addr)?;
        Some(Given {
            file: file_of(alloc, text, addr)?,
            starts: starts_of(alloc, addr, offsets)?,
            place: number(place)? as usize,
            event_size: number(event)?,
            threads,
            space: space_of(alloc, ranges)?,
            locks: locks_of(alloc, addr, locks)?,
        })
    } else {
        None
    }
}
