//! What a version of reports tells beside what was done.
ghost use Rattle.std.specs.Prelude.{◌≡◌};
ghost use Rattle.patch_report.specs.Values.{version_in};

/// A version of reports: the second tells what the original was, and may say of a site that its
/// instruction shares bytes.
#[derive(Clone, Copy, Debug, PartialEq, Eq)]
pub enum Version {
    One,
    Two,
}

/// What the original file was: its length in bytes, and of its ELF-64 header `e_phoff`, `e_phnum`
/// and `e_entry`.
#[derive(Clone, Copy, Debug, PartialEq, Eq)]
pub struct Origin {
    pub len: u64,
    pub phoff: u64,
    pub phnum: u16,
    pub entry: u64,
}

/// The version that tells this, or nothing, of an origin.
pub(crate) fn version_in(origin: Option<Origin>) -> Version
    ensures { result ≡ version_in origin }
{
    match origin {
        None => Version::One,
        Some(_) => Version::Two,
    }
}
