//! The rules that a file's entries keep.
ghost use Rattle.std.specs.Prelude.{◌≡◌, ◌^◌, ◌<◌, length, IfSome};
ghost use Rattle.std.specs.List.{position};
ghost use Rattle.elf_read.specs.Refusals.{entry_refusal, is_dynamic, is_outside, is_oversized, is_misaligned, is_high, is_low, is_behind, first_unordered};

use crate::refusal::ElfError;
use crate::segment::{PT_DYNAMIC, PT_INTERP, PT_LOAD, Segment};
use pun_base::limits::{ADDRESS_END, PAGE_LEN};

impl Segment {
    fn is_dynamic(&self) -> bool
        ensures { result ≡ is_dynamic self.now }
    {
        self.kind == PT_DYNAMIC || self.kind == PT_INTERP
    }

    fn is_outside(&self, len: usize) -> bool
        ensures { result ≡ is_outside len self.now }
    {
        self.kind == PT_LOAD && u128::from(self.offset) + u128::from(self.filesz) > len as u128
    }

    fn is_oversized(&self) -> bool
        ensures { result ≡ is_oversized self.now }
    {
        self.kind == PT_LOAD && self.filesz > self.memsz
    }

    fn is_misaligned(&self) -> bool
        ensures { result ≡ is_misaligned self.now }
    {
        self.is_load() && self.offset % PAGE_LEN as u64 != self.vaddr % PAGE_LEN as u64
    }

    fn is_high(&self) -> bool
        ensures { result ≡ is_high self.now }
    {
        self.is_load() && u128::from(self.vaddr) + u128::from(self.memsz) > ADDRESS_END as u128
    }

    fn is_low(&self, low: u64) -> bool
        ensures { result ≡ is_low low self.now }
    {
        self.is_load() && self.vaddr < low
    }

    /// Whether it begins at or below the last page of the nonempty PT_LOAD before it.
    fn is_behind(&self, before: Option<Segment>) -> bool
        ensures { result ≡ is_behind before self.now }
    {
        match before {
            Some(before) => {
                let end = u128::from(before.vaddr) + u128::from(before.memsz);
                u128::from(self.vaddr) / PAGE_LEN as u128
                    <= end.saturating_sub(1) / PAGE_LEN as u128
            }
            None => false,
        }
    }
}

fn first_dynamic(segments: &[Segment]) -> Option<usize>
    ensures index { result ≡ position is_dynamic segments.now }
    ensures bound { IfSome result (λ i. i < length segments.now) }
{
    segments.iter().position(|segment| segment.is_dynamic())
}

fn first_outside(segments: &[Segment], len: usize) -> Option<usize>
    ensures index { result ≡ position (is_outside len) segments.now }
    ensures bound { IfSome result (λ i. i < length segments.now) }
{
    segments.iter().position(|segment| segment.is_outside(len))
}

fn first_oversized(segments: &[Segment]) -> Option<usize>
    ensures index { result ≡ position is_oversized segments.now }
    ensures bound { IfSome result (λ i. i < length segments.now) }
{
    segments.iter().position(|segment| segment.is_oversized())
}

fn first_misaligned(segments: &[Segment]) -> Option<usize>
    ensures index { result ≡ position is_misaligned segments.now }
    ensures bound { IfSome result (λ i. i < length segments.now) }
{
    segments.iter().position(|segment| segment.is_misaligned())
}

fn first_high(segments: &[Segment]) -> Option<usize>
    ensures index { result ≡ position is_high segments.now }
    ensures bound { IfSome result (λ i. i < length segments.now) }
{
    segments.iter().position(|segment| segment.is_high())
}

fn first_low(segments: &[Segment], low: u64) -> Option<usize>
    ensures index { result ≡ position (is_low low) segments.now }
    ensures bound { IfSome result (λ i. i < length segments.now) }
{
    segments.iter().position(|segment| segment.is_low(low))
}

/// The first nonempty PT_LOAD that is behind the one before it.
fn first_unordered(segments: &[Segment]) -> Option<u32>
    requires { length segments.now < 2 ^ 16 }
    ensures { result ≡ first_unordered 0 None segments.now }
{
    let mut before = None;
    let mut entry = 0;
    for segment in segments {
        if segment.is_load() {
            if segment.is_behind(before) {
                return Some(entry);
            }
            before = Some(*segment);
        }
        entry += 1;
    }
    None
}

/// The first rule that the entries break, in a file of `len` bytes; `low` is the lowest address of a program.
#[tactic(auto, unfolding(crate::specs::Refusals::entry_refusal))]
pub(crate) fn entry_refusal(segments: &[Segment], len: usize, low: u64) -> Option<ElfError>
    requires { length segments.now < 2 ^ 16 }
    ensures { result ≡ entry_refusal low len segments.now }
{
    if let Some(entry) = first_dynamic(segments) {
        return Some(ElfError::Dynamic {
            entry: entry as u32,
        });
    }
    if let Some(entry) = first_outside(segments, len) {
        return Some(ElfError::SegmentOutside {
            entry: entry as u32,
        });
    }
    if let Some(entry) = first_oversized(segments) {
        return Some(ElfError::SizeOrder {
            entry: entry as u32,
        });
    }
    if let Some(entry) = first_misaligned(segments) {
        return Some(ElfError::Misaligned {
            entry: entry as u32,
        });
    }
    if let Some(entry) = first_high(segments) {
        return Some(ElfError::AddressHigh {
            entry: entry as u32,
        });
    }
    if let Some(entry) = first_low(segments, low) {
        return Some(ElfError::AddressLow {
            entry: entry as u32,
        });
    }
    if let Some(entry) = first_unordered(segments) {
        return Some(ElfError::LoadOrder { entry });
    }
    None
}
