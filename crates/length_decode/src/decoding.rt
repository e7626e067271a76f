//! The instruction at the front of bytes.
ghost use Rattle.std.specs.Prelude.{◌≡◌, ◌≤◌, ◌↔◌, length, take};
ghost use Rattle.length_decode.specs.declared.instruction_parts.Parts.{Parts};
ghost use Rattle.length_decode.specs.declared.instruction_parts.Shape.TheVariants.{Known, Unknown, Short};
ghost use Rattle.length_decode.specs.Spelling.{BeginsWith, BeginsWithNone, IsShort};
ghost use Rattle.length_decode.specs.Parse.{parse, shape_from, shape_of};

use crate::instruction_parts::Shape;
use crate::prefix_bytes::read_prefixes;
use crate::reading::{MOST_BYTES, after_prefixes};

/// The first 15 bytes.
fn window(bytes: &[u8]) -> &[u8]
    ensures { result.now ≡ take 15 bytes.now }
{
    if bytes.len() < MOST_BYTES {
        bytes
    } else {
        &bytes[..MOST_BYTES]
    }
}

fn shape_in(window: &[u8]) -> Shape
    requires { length window.now ≤ 15 }
    ensures { result ≡ shape_from (length window.now) (parse window.now) }
{
    let lead = read_prefixes(window);
    let (prefixes, rest) = window.split_at(lead.count);
    after_prefixes(lead, window.len(), prefixes, rest)
}

/// What stands at the front of the bytes, of which the first 15 are looked at.
pub fn decode(bytes: &[u8]) -> Shape
    ensures known { (parts : Parts) → (result ≡ Known parts) ↔ BeginsWith bytes.now parts }
    ensures short { (result ≡ Short) ↔ IsShort bytes.now }
    ensures unknown { (result ≡ Unknown) ↔ (BeginsWithNone bytes.now × (IsShort bytes.now → ⊥)) }
    ensures read { result ≡ shape_of bytes.now }
{
    shape_in(window(bytes))
}
