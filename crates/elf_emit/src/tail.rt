//! What a file has behind its group pages.
use crate::runs::Part;

/// Pages that stand behind the group pages, what the table loads of all these pages, and where the program starts, if not where the
/// original does.
#[derive(Clone, Copy)]
pub struct Tail<'a> {
    /// Whole pages of 4,096 bytes.
    pub bytes: &'a [u8],
    /// Their pages are counted from the first group page on.
    pub parts: &'a [Part],
    pub start: Option<u64>,
}
