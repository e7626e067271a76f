//! Words of a line.
ghost use Rattle.std.specs.Prelude.{◌≡◌, ◌<◌, ◌≤◌, IfOk, IfSome, length, option_map};
ghost use Rattle.std.specs.Str.{bytes_eq};
ghost use Rattle.image_step.specs.Spelling.{name};
ghost use Rattle.image_step.specs.Reading.{address_in, bytes_in, name_in, number_in, permission_in};
ghost use Rattle.list_text.specs.Blanks.{later_words, word};

use hex::FromHexError;
use list_text::parts::split_at_first;
use std::alloc::{AllocError, Global};

/// How many names there are.
pub(crate) const NAMES: usize = 19;

/// The names of the registers, of the flags word and of the bases of fs and gs.
#[tactic(auto, unfolding(crate::specs::Spelling::name))]
pub(crate) fn name_text(place: usize) -> &'static str
    requires { place < 19 }
    ensures { result.now ≡ name place }
{
    match place {
        0 => "rax",
        1 => "rcx",
        2 => "rdx",
        3 => "rbx",
        4 => "rsp",
        5 => "rbp",
        6 => "rsi",
        7 => "rdi",
        8 => "r8",
        9 => "r9",
        10 => "r10",
        11 => "r11",
        12 => "r12",
        13 => "r13",
        14 => "r14",
        15 => "r15",
        16 => "flags",
        17 => "fs",
        _ => "gs",
    }
}

/// Whether a text is this word.
pub(crate) fn is_word(text: &[u8], word: &str) -> bool
    ensures { result ≡ bytes_eq text.now word.now }
{
    text == word.as_bytes()
}

/// The word at the front, and what stands behind the blank after it.
pub(crate) fn split_word(text: &[u8]) -> (&[u8], &[u8])
    ensures word { result.0.now ≡ word text.now }
    ensures later { result.1.now ≡ later_words text.now }
{
    split_at_first(text, b' ')
}

/// The number that sixteen hexadecimal digits spell.
#[tactic(auto, unfolding(crate::specs::Reading::number_in))]
pub(crate) fn read_number(digits: &[u8]) -> Option<u64>
    ensures { result ≡ number_in digits.now }
{
    let mut bytes = [0; 8];
    hex::decode_to_slice(digits, &mut bytes).ok()?;
    Some(u64::from_be_bytes(bytes))
}

/// The bytes that hexadecimal digits spell, where there are 1 to `most`.
#[tactic(auto, unfolding(crate::specs::Reading::bytes_in))]
pub(crate) fn read_bytes(
    alloc: Global,
    digits: &[u8],
    most: usize,
) -> Result<Option<Vec<u8>>, AllocError>
    ensures value { IfOk result (λ found. option_map (λ bytes. bytes.items) found
        ≡ bytes_in most digits.now) }
    ensures some { IfOk result (λ found. IfSome found (λ bytes. 0 < length bytes.items)) }
    ensures room { IfOk result (λ found. IfSome found (λ bytes. length bytes.items ≤ most)) }
{
    match hex::decode(alloc, digits) {
        Ok(bytes) => {
            if !bytes.is_empty() && bytes.len() <= most {
                Ok(Some(bytes))
            } else {
                Ok(None)
            }
        }
        Err(FromHexError::OutOfMemory) => Err(AllocError),
        Err(FromHexError::OddLength) => Ok(None),
        Err(FromHexError::InvalidStringLength) => Ok(None),
        Err(FromHexError::InvalidHexCharacter { .. }) => Ok(None),
    }
}

/// The place of a name.
#[tactic(auto, unfolding(crate::specs::Reading::name_in))]
pub(crate) fn read_name(text: &[u8]) -> Option<usize>
    ensures { result ≡ name_in text.now }
{
    for place in 0..NAMES {
        if is_word(text, name_text(place)) {
            return Some(place);
        }
    }
    None
}

/// The permissions that a word names.
#[tactic(auto, unfolding(crate::specs::Reading::permission_in))]
pub(crate) fn read_permission(text: &[u8]) -> u8
    ensures { result ≡ permission_in text.now }
{
    if is_word(text, "rw-") {
        6
    } else if is_word(text, "r-x") {
        5
    } else if is_word(text, "rwx") {
        7
    } else {
        4
    }
}

/// The address that a word names, or none where it is `-`.
#[tactic(auto, unfolding(crate::specs::Reading::address_in))]
pub(crate) fn read_address(text: &[u8]) -> Option<Option<u64>>
    ensures { result ≡ address_in text.now }
{
    if is_word(text, "-") {
        return Some(None);
    }
    let address = read_number(text)?;
    Some(Some(address))
}
