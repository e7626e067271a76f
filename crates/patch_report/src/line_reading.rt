//! The line at the front of a text.
ghost use Rattle.std.specs.Prelude.{◌≡◌, slice_get, IfSome, option_map, true};
ghost use Rattle.patch_report.specs.Grammar.{line_holds};
ghost use Rattle.patch_report.specs.Reading.{is_there, line_at};
ghost use Rattle.patch_report.specs.Front.{action_front, event_front, line_front, mark_front, origin_front, outer_front, page_front, private_front, pun_front, site_front, sites_front, tramp_front, version_front, write_front};
ghost use Rattle.patch_report.specs.Views.{at_value, next_value};

use crate::field_reading::{
    take_address, take_bytes, take_decimal, take_entry, take_number, take_short, take_word,
};
use crate::line::{Line, Mark};
use crate::origin::{Origin, Version};
use list_text::action_reading::read_action_word;
use list_text::lists::MOST_SITES;
use list_text::parts::split_at_first;
use pun_base::limits::{ADDRESS_END, PAGE_LEN};
use pun_base::pun::Pun;
use pun_base::scheme::Scheme;
use pun_base::tramp::Tramp;

/// Whether a text begins with a byte.
pub(crate) fn begins_with(text: &[u8], byte: u8) -> bool
    ensures { result ≡ is_there byte (slice_get text.now 0) }
{
    match text.first() {
        Some(first) => *first == byte,
        None => false,
    }
}

/// The outcome that the last word of a site's line names.
#[tactic(auto, unfolding(crate::specs::Front::mark_front))]
fn read_mark(text: &[u8]) -> Option<(Mark, &[u8])>
    ensures { option_map (λ x. (x.0, x.1.now)) result ≡ mark_front text.now }
{
    if let Some(later) = take_word(text, b"B1\n") {
        Some((Mark::Patched(Scheme::B1), later))
    } else if let Some(later) = take_word(text, b"B2\n") {
        Some((Mark::Patched(Scheme::B2), later))
    } else if let Some(later) = take_word(text, b"T1\n") {
        Some((Mark::Patched(Scheme::T1), later))
    } else if let Some(later) = take_word(text, b"T2\n") {
        Some((Mark::Patched(Scheme::T2), later))
    } else if let Some(later) = take_word(text, b"T3\n") {
        Some((Mark::Patched(Scheme::T3), later))
    } else if let Some(later) = take_word(text, b"NotRelocatable\n") {
        Some((Mark::NotRelocatable, later))
    } else if let Some(later) = take_word(text, b"NoPlan\n") {
        Some((Mark::NoPlan, later))
    } else {
        let later = take_word(text, b"Shared\n")?;
        Some((Mark::Shared, later))
    }
}

/// Whether the last word of a trampoline's line says that the event is recorded.
#[tactic(auto, unfolding(crate::specs::Front::event_front))]
fn read_event(text: &[u8]) -> Option<(bool, &[u8])>
    ensures { option_map (λ x. (x.0, x.1.now)) result ≡ event_front text.now }
{
    if let Some(later) = take_word(text, b"event\n") {
        Some((true, later))
    } else {
        let later = take_word(text, b"plain\n")?;
        Some((false, later))
    }
}

/// The line of an origin, behind its first word.
#[tactic(auto, unfolding(crate::specs::Front::origin_front))]
fn read_origin(text: &[u8]) -> Option<(Line, &[u8])>
    ensures { option_map (λ x. (x.0, x.1.now)) result ≡ origin_front text.now }
{
    let (len, text) = take_number(text, b' ')?;
    let (phoff, text) = take_number(text, b' ')?;
    let (phnum, text) = take_short(text, b' ')?;
    let (entry, later) = take_entry(text, b'\n')?;
    let origin = Origin {
        len,
        phoff,
        phnum,
        entry,
    };
    Some((Line::Origin(origin), later))
}

/// A line that tells the version, or what it tells of the original.
#[tactic(auto, unfolding(crate::specs::Front::version_front))]
fn read_version(text: &[u8]) -> Option<(Line, &[u8])>
    ensures { option_map (λ x. (x.0, x.1.now)) result ≡ version_front text.now }
{
    if let Some(later) = take_word(text, b"origin ") {
        read_origin(later)
    } else if let Some(later) = take_word(text, b"e9report 2\n") {
        Some((Line::Version(Version::Two), later))
    } else {
        let later = take_word(text, b"e9report 1\n")?;
        Some((Line::Version(Version::One), later))
    }
}

/// The line of an action, behind its first word.
#[tactic(auto, unfolding(crate::specs::Front::action_front))]
fn read_action(text: &[u8]) -> Option<(Line, &[u8])>
    ensures { option_map (λ x. (x.0, x.1.now)) result ≡ action_front text.now }
{
    let (word, later) = split_at_first(text, b'\n');
    if word.len() == text.len() {
        return None;
    }
    let action = read_action_word(word)?;
    Some((Line::Action(action), later))
}

/// The line of the private range, behind its first word.
#[tactic(auto, unfolding(crate::specs::Front::private_front))]
fn read_private(text: &[u8]) -> Option<(Line, &[u8])>
    ensures { option_map (λ x. (x.0, x.1.now)) result ≡ private_front text.now }
{
    let (lo, text) = take_address(text, b' ')?;
    let (pages, later) = take_decimal(text, b'\n')?;
    if lo % PAGE_LEN == 0
        && pages > 0
        && lo <= ADDRESS_END
        && pages <= (ADDRESS_END - lo) / PAGE_LEN
    {
        let hi = lo + PAGE_LEN * pages;
        Some((Line::Private { lo, hi }, later))
    } else {
        None
    }
}

/// The line of the number of sites, behind its first word.
#[tactic(auto, unfolding(crate::specs::Front::sites_front))]
fn read_sites(text: &[u8]) -> Option<(Line, &[u8])>
    ensures { option_map (λ x. (x.0, x.1.now)) result ≡ sites_front text.now }
{
    let (count, later) = take_decimal(text, b'\n')?;
    if count <= MOST_SITES {
        Some((Line::Sites(count), later))
    } else {
        None
    }
}

/// A site's line, behind its first word.
#[tactic(auto, unfolding(crate::specs::Front::site_front))]
fn read_site(text: &[u8]) -> Option<(Line, &[u8])>
    ensures { option_map (λ x. (x.0, x.1.now)) result ≡ site_front text.now }
{
    let (site, text) = take_address(text, b' ')?;
    let (number, text) = take_decimal(text, b' ')?;
    let (outcome, later) = read_mark(text)?;
    let line = Line::Site {
        site,
        number,
        outcome,
    };
    Some((line, later))
}

/// A trampoline's line, behind its first word.
#[tactic(auto, unfolding(crate::specs::Front::tramp_front))]
fn read_tramp(text: &[u8]) -> Option<(Line, &[u8])>
    ensures { option_map (λ x. (x.0, x.1.now)) result ≡ tramp_front text.now }
{
    let (place, text) = take_address(text, b' ')?;
    let (start, text) = take_address(text, b' ')?;
    let (event, later) = read_event(text)?;
    if place < ADDRESS_END {
        let tramp = Tramp {
            place,
            start,
            event,
        };
        Some((Line::Tramp(tramp), later))
    } else {
        None
    }
}

/// The line of a write, behind its first word.
#[tactic(auto, unfolding(crate::specs::Front::write_front))]
fn read_write(text: &[u8]) -> Option<(Line, &[u8])>
    ensures { option_map (λ x. (x.0, x.1.now)) result ≡ write_front text.now }
{
    let (addr, text) = take_address(text, b' ')?;
    let (was, text) = take_bytes(text, b' ')?;
    let (now, later) = take_bytes(text, b'\n')?;
    if now.len() == was.len() {
        Some((Line::Write { addr, was, now }, later))
    } else {
        None
    }
}

/// The line of punned bytes, behind its first word.
#[tactic(auto, unfolding(crate::specs::Front::pun_front))]
fn read_pun(text: &[u8]) -> Option<(Line, &[u8])>
    ensures { option_map (λ x. (x.0, x.1.now)) result ≡ pun_front text.now }
{
    let (addr, text) = take_address(text, b' ')?;
    let (bytes, later) = take_bytes(text, b'\n')?;
    Some((Line::Pun(Pun { addr, bytes }), later))
}

/// A page's line, behind its first word.
#[tactic(auto, unfolding(crate::specs::Front::page_front))]
fn read_page(text: &[u8]) -> Option<(Line, &[u8])>
    ensures { option_map (λ x. (x.0, x.1.now)) result ≡ page_front text.now }
{
    let (page, text) = take_address(text, b' ')?;
    let (group, later) = take_decimal(text, b'\n')?;
    if page % PAGE_LEN == 0 && page < ADDRESS_END {
        Some((Line::Page { page, group }, later))
    } else {
        None
    }
}

/// A line before the rows or behind the pages.
#[tactic(auto, unfolding(crate::specs::Front::outer_front))]
fn read_outer(text: &[u8]) -> Option<(Line, &[u8])>
    ensures { option_map (λ x. (x.0, x.1.now)) result ≡ outer_front text.now }
{
    if let Some(later) = take_word(text, b"action ") {
        read_action(later)
    } else if let Some(later) = take_word(text, b"private ") {
        read_private(later)
    } else if let Some(later) = take_word(text, b"sites ") {
        read_sites(later)
    } else if let Some(later) = take_word(text, b"end\n") {
        Some((Line::End, later))
    } else {
        read_version(text)
    }
}

/// The line at the front of a text, and what stands behind its LF.
#[tactic(auto, unfolding(crate::specs::Front::line_front))]
fn read_line(text: &[u8]) -> Option<(Line, &[u8])>
    ensures { option_map (λ x. (x.0, x.1.now)) result ≡ line_front text.now }
{
    if let Some(later) = take_word(text, b"write ") {
        read_write(later)
    } else if let Some(later) = take_word(text, b"tramp ") {
        read_tramp(later)
    } else if let Some(later) = take_word(text, b"site ") {
        read_site(later)
    } else if let Some(later) = take_word(text, b"pun ") {
        read_pun(later)
    } else if let Some(later) = take_word(text, b"page ") {
        read_page(later)
    } else {
        read_outer(text)
    }
}

/// Where reading stands: the text from the next line on, and that line's number.
#[derive(Clone, Copy)]
pub(crate) struct Cursor<'a> {
    pub text: &'a [u8],
    pub place: u32,
}

/// The next line, which ends with LF, and where reading goes on.
pub(crate) fn next_line(at: Cursor) -> Option<(Line, Cursor)>
    ensures value { option_map next_value result ≡ line_at (at_value at.entry) }
    ensures holds { IfSome result (λ x. line_holds x.0 ≡ true) }
{
    let Some((line, text)) = read_line(at.text) else {
        return None;
    };
    let later = Cursor {
        text,
        place: at.place.saturating_add(1),
    };
    Some((line, later))
}
