//! The status flags and their places in the flags word.
ghost use Rattle.std.specs.Prelude.{◌≡◌, ◌<◌};
ghost use Rattle.cpu_alu.specs.FlagWord.{packed, unpacked, others, is_set};

/// The status flags, and the other bits of the flags word (Intel SDM, volume 1, section 3.4.3, EFLAGS).
#[derive(Clone, Copy, Debug, PartialEq, Eq)]
pub struct Flags {
    /// Carry, bit 0 of the word.
    pub cf: bool,
    /// Parity, bit 2.
    pub pf: bool,
    /// Auxiliary carry, bit 4.
    pub af: bool,
    /// Zero, bit 6.
    pub zf: bool,
    /// Sign, bit 7.
    pub sf: bool,
    /// Overflow, bit 11.
    pub of: bool,
    /// The word's other bits, each at its place.
    pub rest: u64,
}

/// The places of the six flags.
const PLACES: u64 = 1 | 1 << 2 | 1 << 4 | 1 << 6 | 1 << 7 | 1 << 11;

/// A word without the bits of the six flags.
fn others(word: u64) -> u64
    ensures { result ≡ others word }
{
    word & !PLACES
}

/// Whether the bit at a place of a word is set, counted from the lowest one.
pub fn is_set(word: u64, place: u32) -> bool
    requires { place < 64 }
    ensures { result ≡ is_set word place }
{
    (word >> place) % 2 == 1
}

/// The flags word: each flag at its place, and every other bit as in `rest`.
#[tactic(auto, unfolding(crate::specs::FlagWord::packed))]
pub fn pack(flags: Flags) -> u64
    ensures { result ≡ packed flags }
{
    others(flags.rest)
        + u64::from(flags.cf)
        + (u64::from(flags.pf) << 2)
        + (u64::from(flags.af) << 4)
        + (u64::from(flags.zf) << 6)
        + (u64::from(flags.sf) << 7)
        + (u64::from(flags.of) << 11)
}

/// The flags at their places in a flags word, and the word without them as `rest`.
#[tactic(auto, unfolding(crate::specs::FlagWord::unpacked))]
pub fn unpack(word: u64) -> Flags
    ensures { result ≡ unpacked word }
{
    Flags {
        cf: is_set(word, 0),
        pf: is_set(word, 2),
        af: is_set(word, 4),
        zf: is_set(word, 6),
        sf: is_set(word, 7),
        of: is_set(word, 11),
        rest: others(word),
    }
}
