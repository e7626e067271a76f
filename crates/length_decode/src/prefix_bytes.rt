//! The prefix bytes of an instruction.
ghost use Rattle.std.specs.Prelude.{◌≡◌, ◌<◌, ◌^◌, ◌+◌, []};
ghost use Rattle.length_decode.specs.Prefix as prefix;
ghost use Rattle.length_decode.specs.Parse.{prefix_run};

use crate::byte_tables::is_prefix;
use crate::instruction_parts::Prefixes;

/// What the prefix bytes of an instruction say.
#[derive(Clone, Copy, Debug, PartialEq, Eq)]
pub struct Lead {
    /// How many there are.
    pub count: usize,
    pub prefixes: Prefixes,
    /// The effective REX byte, or 0.
    pub rex: u8,
    /// Whether a REX byte is among them, effective or not.
    pub any_rex: bool,
}

fn is_rex(byte: u8) -> bool
    ensures { result ≡ prefix.is_rex byte }
{
    matches!(byte, 0x40..=0x4f)
}

impl Prefixes {
    /// These prefixes and one more.
    fn with(self, byte: u8) -> Prefixes
        ensures { result ≡ prefix.prefixes_after self byte }
    {
        Prefixes {
            lock: self.lock || byte == 0xf0,
            repne: self.repne || byte == 0xf2,
            rep: self.rep || byte == 0xf3,
            opsize: self.opsize || byte == 0x66,
            addrsize: self.addrsize || byte == 0x67,
            fs: self.fs || byte == 0x64,
            gs: self.gs || byte == 0x65,
        }
    }
}

impl Lead {
    /// No prefix byte.
    fn none() -> Lead
        ensures { result ≡ prefix.lead_of [] }
    {
        Lead {
            count: 0,
            prefixes: Prefixes {
                lock: false,
                repne: false,
                rep: false,
                opsize: false,
                addrsize: false,
                fs: false,
                gs: false,
            },
            rex: 0,
            any_rex: false,
        }
    }

    /// These prefix bytes and one more.
    fn with(self, byte: u8) -> Lead
        requires { self.count + 1 < 2 ^ 64 }
        ensures { result ≡ prefix.lead_after self byte }
    {
        Lead {
            count: self.count + 1,
            prefixes: self.prefixes.with(byte),
            rex: if is_rex(byte) { byte } else { 0 },
            any_rex: self.any_rex || is_rex(byte),
        }
    }
}

/// The prefix bytes at the front of bytes.
pub(crate) fn read_prefixes(bytes: &[u8]) -> Lead
    ensures { result ≡ prefix.lead_of (prefix_run bytes.now) }
{
    let mut lead = Lead::none();
    for byte in bytes {
        if !is_prefix(*byte) {
            return lead;
        }
        lead = lead.with(*byte);
    }
    lead
}
