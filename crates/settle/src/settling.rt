//! Files that are settled.
ghost use Rattle.std.specs.Prelude.{◌≡◌, ℕ, ◌+◌, ◌*◌, ◌%◌, ◌^◌, ◌≤◌, ◌++◌, List, length, None, IfErr, IfOk};
ghost use Rattle.std.specs.List.{find};
ghost use Rattle.elf_read.specs.Entries.{entry_of, segments, table_count, table_place};
ghost use Rattle.settle.specs.Settled.{front_with, has_bytes, loaded_at, settled};
ghost use Rattle.settle.specs.Refusals.{chosen_base, header_refusal as refused_header, places_refusal, settle_refusal, Refused};
ghost use Rattle.settle.specs.Settling.{IsJudged, IsSettling, settled_error};
ghost use Rattle.pun_base.specs.Desk.{as_list};
ghost use Rattle.settle.specs.declared.error.SettleError.TheVariants.{Memory};

use crate::choosing::{entries_refusal, highest_base};
use crate::entries::{first_with, is_exec, read_entries};
use crate::error::SettleError;
use crate::front::with_front;
use crate::header::header_refusal;
use elf_read::elf::read_elf;
use elf_read::header::{E_ENTRY, E_PHNUM, E_PHOFF};
use elf_read::refusal::ElfError;
use elf_read::segment::{ENTRY_LEN, Segment};
use pun_base::field::{get_u16, get_u64};
use std::alloc::Global;

/// How many numbers four bytes tell.
const WORDS: u128 = 0x1_0000_0000;

/// A file that was settled, and its base.
#[derive(Drop)]
pub struct SettledFile {
    pub base: u32,
    pub bytes: Vec<u8>,
}

/// Settles a file at a base, or at the highest at which it isn't too high. The error is the first rule that is broken, or `Memory`.
pub fn settle(alloc: Global, file: &[u8], base: Option<u32>) -> Result<SettledFile, SettleError>
    ensures refused { IfErr result (λ error. Refused (chosen_base base file.now) file.now error) }
    ensures accepted { IfOk result (λ made.
        settle_refusal (chosen_base base file.now) file.now ≡ None) }
    ensures base { IfOk result (λ made. made.base ≡ chosen_base base file.now) }
    ensures settled { IfOk result (λ made. made.bytes.items
        ≡ settled (chosen_base base file.now) file.now) }
{
    if let Some(error) = header_refusal(file) {
        return Err(error);
    }
    let entries = entries_of(alloc, file)?;
    let base = base_of(base, &entries);
    let bytes = settle_entries(alloc, file, &entries, base)?;
    Ok(SettledFile { base, bytes })
}

/// The entries of a file whose header breaks no rule.
#[tactic(auto, unfolding(elf_read::specs::Entries::table_place, elf_read::specs::Entries::table_count))]
fn entries_of(alloc: Global, file: &[u8]) -> Result<Vec<Segment>, SettleError>
    requires long { 64 ≤ length file.now }
    requires table { table_place file.now + 56 * table_count file.now ≤ length file.now }
    ensures value { IfOk result (λ v. v.items ≡ segments file.now) }
    ensures len { IfOk result (λ v. length v.items ≡ table_count file.now) }
    ensures lost { IfErr result (λ e. e ≡ Memory) }
{
    let place = get_u64(file, E_PHOFF) as usize;
    Ok(read_entries(alloc, file, place, get_u16(file, E_PHNUM))?)
}

/// The base that is told, or else the highest.
fn base_of(base: Option<u32>, entries: &[Segment]) -> u32
    ensures { (file : List ℕ) → entries.now ≡ segments file → result ≡ chosen_base base file }
{
    match base {
        Some(base) => base,
        None => highest_base(entries),
    }
}

/// Settles a file of these entries, whose header breaks no rule, at a base.
fn settle_entries(
    alloc: Global,
    file: &[u8],
    entries: &[Segment],
    base: u32,
) -> Result<Vec<u8>, SettleError>
    requires header { refused_header file.now ≡ None }
    requires long { 64 ≤ length file.now }
    requires entries { entries.now ≡ segments file.now }
    requires few { length entries.now ≤ 1023 }
    ensures { IsSettling base file.now (as_list (λ v. v.items) result) }
{
    let len = file.len();
    match entries_refusal(entries, len, base) {
        Some(error) => return Err(error),
        None => {}
    }
    let own = own_entry(file, entries);
    let out = written(alloc, file, entries, own, base)?;
    match judge(alloc, &out) {
        Some(error) => return Err(error),
        None => {}
    }
    match refused_places(file, entries, own) {
        Some(error) => Err(error),
        None => Ok(out),
    }
}

/// The first entry that has the file's own table.
#[tactic(auto, unfolding(elf_read::specs::Entries::table_place, elf_read::specs::Entries::table_count))]
fn own_entry(file: &[u8], entries: &[Segment]) -> Option<Segment>
    requires { 64 ≤ length file.now }
    ensures { result ≡ find (has_bytes (table_place file.now) (56 * table_count file.now)) entries.now }
{
    let size = ENTRY_LEN as u64 * u64::from(get_u16(file, E_PHNUM));
    first_with(entries, get_u64(file, E_PHOFF), size)
}

/// Where a place of the file is loaded by an entry, at a base.
fn loaded_at(base: u32, place: u64, entry: Option<Segment>) -> u128
    ensures { result ≡ loaded_at base place entry }
{
    match entry {
        Some(entry) => {
            u128::from(base)
                + u128::from(entry.vaddr)
                + u128::from(place.saturating_sub(entry.offset))
        }
        None => 0,
    }
}

/// The settled file, if its own table and its entry are loaded below 2^32.
#[tactic(auto, unfolding(elf_read::specs::Entries::table_place, elf_read::specs::Entries::entry_of))]
fn written(
    alloc: Global,
    file: &[u8],
    entries: &[Segment],
    own: Option<Segment>,
    base: u32,
) -> Result<Vec<u8>, SettleError>
    requires long { 64 ≤ length file.now }
    requires few { length entries.now ≤ 1023 }
    ensures out { IfOk result (λ v. v.items ≡ front_with base file.now entries.now
        (loaded_at base (table_place file.now) own % 2 ^ 32) ((base + entry_of file.now) % 2 ^ 32) ++ file.now) }
    ensures lost { IfErr result (λ e. e ≡ Memory) }
{
    let phdr = loaded_at(base, get_u64(file, E_PHOFF), own) % WORDS;
    let entry = (u128::from(base) + u128::from(get_u64(file, E_ENTRY))) % WORDS;
    Ok(with_front(alloc, file, entries, base, phdr as u32, entry as u32)?)
}

/// What an error of the settled file is told as.
fn settled_error(error: ElfError) -> SettleError
    ensures { result ≡ settled_error error }
{
    match error {
        ElfError::Memory => SettleError::Memory,
        error => SettleError::Settled(error),
    }
}

/// The first rule that the settled file breaks.
fn judge(alloc: Global, out: &[u8]) -> Option<SettleError>
    ensures { IsJudged out.now result }
{
    match read_elf(alloc, out) {
        Ok(_) => None,
        Err(error) => Some(settled_error(error)),
    }
}

/// No entry has the file's own table, or the entry point is no byte that can be executed.
#[tactic(auto, unfolding(elf_read::specs::Entries::entry_of))]
fn refused_places(file: &[u8], entries: &[Segment], own: Option<Segment>) -> Option<SettleError>
    requires long { 64 ≤ length file.now }
    requires entries { entries.now ≡ segments file.now }
    requires own { own ≡ find (has_bytes (table_place file.now) (56 * table_count file.now)) (segments file.now) }
    ensures { result ≡ places_refusal file.now }
{
    if own.is_none() {
        return Some(SettleError::TableNotLoaded);
    }
    if is_exec(entries, get_u64(file, E_ENTRY)) {
        None
    } else {
        Some(SettleError::EntryOutside)
    }
}
