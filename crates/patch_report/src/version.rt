//! Other versions of reports.
ghost use Rattle.std.specs.Prelude.{◌≡◌};
ghost use Rattle.std.specs.List.{list_all};
ghost use Rattle.std.specs.Str.{bytes_eq};
ghost use Rattle.patch_report.specs.Answers.{has_other_version, is_digit, is_numeral, names_other};

use crate::field_reading::is_digit;
use list_text::parts::split_at_first;

/// Whether a text is this word.
fn is_word(text: &[u8], word: &str) -> bool
    ensures { result ≡ bytes_eq text.now word.now }
{
    text == word.as_bytes()
}

/// Whether all bytes are decimal digits.
fn all_digits(text: &[u8]) -> bool
    ensures { result ≡ list_all is_digit text.now }
{
    text.iter().all(|digit| is_digit(*digit))
}

/// Whether a text is a decimal number without zeros in front.
fn is_numeral(text: &[u8]) -> bool
    ensures { result ≡ is_numeral text.now }
{
    match text {
        [] => false,
        [first, later @ ..] => {
            is_digit(*first) && (later.is_empty() || *first != 48) && all_digits(later)
        }
    }
}

/// Whether a first line names another version.
fn names_other(line: &[u8]) -> bool
    ensures { result ≡ names_other line.now }
{
    let (kind, number) = split_at_first(line, b' ');
    is_word(kind, "e9report")
        && is_numeral(number)
        && !is_word(number, "1")
        && !is_word(number, "2")
}

/// Whether the first line ends with LF and names another version.
pub(crate) fn has_other_version(text: &[u8]) -> bool
    ensures { result ≡ has_other_version text.now }
{
    let (line, _later) = split_at_first(text, b'\n');
    line.len() != text.len() && names_other(line)
}
