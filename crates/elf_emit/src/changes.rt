//! What a patched file has that the original hasn't.
use crate::built::Built;
use crate::runs::Page;
use crate::tail::Tail;
use pun_base::plan::Write;
use pun_base::range::Range;

/// What is written over the original's bytes, code with its pages, how many group pages there are, the private range, and what
/// stands behind the group pages.
#[derive(Drop)]
pub(crate) struct Changes<'a> {
    pub writes: &'a [Write],
    pub built: &'a [Built],
    pub pages: Vec<Page>,
    pub groups: u32,
    pub private: Range,
    pub tail: Tail<'a>,
}
