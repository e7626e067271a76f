//! The text of each line.
ghost use Rattle.std.specs.Prelude.{◌≡◌, ◌≤◌, ◌++◌, length, codes, OnOk};
ghost use Rattle.std.specs.Fmt.{decimal};
ghost use Rattle.hex.specs.Hex.{encode_lower};
ghost use Rattle.patch_report.specs.Spelling.{hex16, hex8, line_text, mark_word, event_word};
ghost use Rattle.patch_report.specs.declared.line.Line.TheVariants as line;

use crate::line::Mark;
use crate::origin::Origin;
use itoa::Buffer;
use list_text::action_words::push_action_word;
use pun_base::action::Action;
use pun_base::limits::PAGE_LEN;
use pun_base::pun::Pun;
use pun_base::scheme::Scheme;
use pun_base::tramp::Tramp;
use std::alloc::AllocError;

/// Appends eight hexadecimal digits.
#[tactic(auto, unfolding(crate::specs::Spelling::hex8))]
fn push_address(out: &mut Vec<u8>, address: u32) -> Result<(), AllocError>
    ensures { OnOk result (out.new.items ≡ out.old.items ++ hex8 address) }
{
    let mut digits = [0; 8];
    hex::encode_to_slice(address.to_be_bytes(), &mut digits).unwrap();
    out.extend_from_slice(&digits)
}

/// Appends sixteen hexadecimal digits.
#[tactic(auto, unfolding(crate::specs::Spelling::hex16))]
fn push_entry(out: &mut Vec<u8>, entry: u64) -> Result<(), AllocError>
    ensures { OnOk result (out.new.items ≡ out.old.items ++ hex16 entry) }
{
    let mut digits = [0; 16];
    hex::encode_to_slice(entry.to_be_bytes(), &mut digits).unwrap();
    out.extend_from_slice(&digits)
}

/// Appends two hexadecimal digits a byte, for at most sixteen bytes.
fn push_bytes(out: &mut Vec<u8>, bytes: &[u8]) -> Result<(), AllocError>
    requires { length bytes.now ≤ 16 }
    ensures { OnOk result (out.new.items ≡ out.old.items ++ encode_lower bytes.now) }
{
    let mut buffer = [0; 32];
    let digits = &mut buffer[..2 * bytes.len()];
    hex::encode_to_slice(bytes, digits).unwrap();
    out.extend_from_slice(digits)
}

/// Appends decimal digits.
fn push_decimal(out: &mut Vec<u8>, number: u64) -> Result<(), AllocError>
    ensures { OnOk result (out.new.items ≡ out.old.items ++ decimal number) }
{
    let mut buffer = Buffer::new();
    out.extend_from_slice(buffer.format(number).as_bytes())
}

/// The word of an outcome.
fn mark_name(mark: Mark) -> &'static [u8]
    ensures { result.now ≡ mark_word mark }
{
    match mark {
        Mark::Patched(Scheme::B1) => b"B1",
        Mark::Patched(Scheme::B2) => b"B2",
        Mark::Patched(Scheme::T1) => b"T1",
        Mark::Patched(Scheme::T2) => b"T2",
        Mark::Patched(Scheme::T3) => b"T3",
        Mark::NotRelocatable => b"NotRelocatable",
        Mark::NoPlan => b"NoPlan",
        Mark::Shared => b"Shared",
    }
}

/// The word that says whether an event is recorded.
fn event_name(event: bool) -> &'static [u8]
    ensures { result.now ≡ event_word event }
{
    if event { b"event" } else { b"plain" }
}

/// Appends what a file's header tells: `e_phoff`, `e_phnum` and `e_entry`.
fn push_header(out: &mut Vec<u8>, origin: Origin) -> Result<(), AllocError>
    ensures { OnOk result (out.new.items ≡ out.old.items ++ (decimal origin.phoff ++ (codes " "
        ++ (decimal origin.phnum ++ (codes " " ++ hex16 origin.entry))))) }
{
    push_decimal(out, origin.phoff)?;
    out.extend_from_slice(b" ")?;
    push_decimal(out, u64::from(origin.phnum))?;
    out.extend_from_slice(b" ")?;
    push_entry(out, origin.entry)
}

/// Appends the line of an origin.
pub(crate) fn push_origin(out: &mut Vec<u8>, origin: Origin) -> Result<(), AllocError>
    ensures { OnOk result (out.new.items ≡ out.old.items ++ line_text (line.Origin origin)) }
{
    out.extend_from_slice(b"origin ")?;
    push_decimal(out, origin.len)?;
    out.extend_from_slice(b" ")?;
    push_header(out, origin)
}

/// Appends the line of the private range: its first address and its number of pages.
pub(crate) fn push_private(out: &mut Vec<u8>, lo: u32, hi: u32) -> Result<(), AllocError>
    ensures { OnOk result (out.new.items ≡ out.old.items ++ line_text (line.Private lo hi)) }
{
    out.extend_from_slice(b"private ")?;
    push_address(out, lo)?;
    out.extend_from_slice(b" ")?;
    push_decimal(out, u64::from(hi.saturating_sub(lo) / PAGE_LEN))
}

/// Appends a line that tells the number of sites.
pub(crate) fn push_sites(out: &mut Vec<u8>, count: usize) -> Result<(), AllocError>
    ensures { OnOk result (out.new.items ≡ out.old.items ++ line_text (line.Sites count)) }
{
    out.extend_from_slice(b"sites ")?;
    push_decimal(out, count as u64)
}

/// Appends a line that tells the action.
pub(crate) fn push_action(out: &mut Vec<u8>, action: Action) -> Result<(), AllocError>
    ensures { OnOk result (out.new.items ≡ out.old.items ++ line_text (line.Action action)) }
{
    out.extend_from_slice(b"action ")?;
    push_action_word(out, action)
}

/// Appends a site's line.
pub(crate) fn push_site(
    out: &mut Vec<u8>,
    site: u32,
    number: u32,
    outcome: Mark,
) -> Result<(), AllocError>
    ensures { OnOk result (out.new.items ≡ out.old.items
        ++ line_text (line.Site site number outcome)) }
{
    out.extend_from_slice(b"site ")?;
    push_address(out, site)?;
    out.extend_from_slice(b" ")?;
    push_decimal(out, u64::from(number))?;
    out.extend_from_slice(b" ")?;
    out.extend_from_slice(mark_name(outcome))
}

/// Appends a trampoline's line.
pub(crate) fn push_tramp(out: &mut Vec<u8>, tramp: Tramp) -> Result<(), AllocError>
    ensures { OnOk result (out.new.items ≡ out.old.items ++ line_text (line.Tramp tramp)) }
{
    out.extend_from_slice(b"tramp ")?;
    push_address(out, tramp.place)?;
    out.extend_from_slice(b" ")?;
    push_address(out, tramp.start)?;
    out.extend_from_slice(b" ")?;
    out.extend_from_slice(event_name(tramp.event))
}

/// Appends the line of a write.
pub(crate) fn push_write(
    out: &mut Vec<u8>,
    addr: u32,
    was: &[u8],
    now: &[u8],
) -> Result<(), AllocError>
    requires was { length was.now ≤ 16 }
    requires now { length now.now ≤ 16 }
    ensures { OnOk result (out.new.items ≡ out.old.items
        ++ line_text (line.Write addr was.now now.now)) }
{
    out.extend_from_slice(b"write ")?;
    push_address(out, addr)?;
    out.extend_from_slice(b" ")?;
    push_bytes(out, was)?;
    out.extend_from_slice(b" ")?;
    push_bytes(out, now)
}

/// Appends the line of punned bytes.
pub(crate) fn push_pun(out: &mut Vec<u8>, pun: &Pun) -> Result<(), AllocError>
    ensures { OnOk result (out.new.items ≡ out.old.items ++ line_text (line.Pun pun.now)) }
{
    out.extend_from_slice(b"pun ")?;
    push_address(out, pun.addr)?;
    out.extend_from_slice(b" ")?;
    push_bytes(out, pun.bytes.as_slice())
}

/// Appends a page's line.
pub(crate) fn push_page(out: &mut Vec<u8>, page: u32, group: u32) -> Result<(), AllocError>
    ensures { OnOk result (out.new.items ≡ out.old.items ++ line_text (line.Page page group)) }
{
    out.extend_from_slice(b"page ")?;
    push_address(out, page)?;
    out.extend_from_slice(b" ")?;
    push_decimal(out, u64::from(group))
}
