//! Codes of trampolines that meet.
ghost use Rattle.std.specs.Prelude.{◌≡◌};
ghost use Rattle.thread_check.specs.LineParts as parts;

use image_check::placed_code::PlacedCode;

/// The first place, of code sorted by place, below the end of the code before it.
pub(crate) fn first_overlap(codes: &[PlacedCode]) -> Option<u64>
    ensures { result ≡ parts.first_overlap 0 codes.now }
{
    let mut left = codes;
    let mut reached = 0;
    while let Some((code, later)) = left.split_first() {
        let place = u64::from(code.line.tramp.place);
        if place < reached {
            return Some(place);
        }
        reached = place + code.bytes.as_slice().len() as u64;
        left = later;
    }
    None
}
