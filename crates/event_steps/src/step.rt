//! Events as data: lists of steps, each one instruction (Intel SDM, volume 2, ADD, CMP, INC, Jcc, LAHF, LEA, LOCK, MOV, MOVZX, SAHF, SETcc, XADD).
ghost use Rattle.std.specs.Prelude.{◌≡◌, true};
ghost use Rattle.event_steps.specs.declared.step.Place.TheVariants.{At};

/// Where bytes lie that an event saves in or marks.
#[derive(Clone, Copy)]
pub enum Place {
    /// From an address on.
    At(u32),
    /// From so many bytes below rsp on.
    Below(u32),
}

/// Such bytes: a datum of an event, which is one number, or an array of numbers of four bytes.
#[derive(Clone, Copy)]
pub struct Datum {
    pub place: Place,
    pub size: u32,
    pub number: bool,
}

impl Datum {
    /// A number of so many bytes, from an address on.
    pub fn at(addr: u32, size: u32) -> Self
        ensures { result ≡ record { place = At addr; size = size; number = true } }
    {
        Datum {
            place: Place::At(addr),
            size,
            number: true,
        }
    }
}

/// One instruction of an event. A datum is named by its place in the event's list of them.
#[derive(Clone, Copy, Default)]
pub enum EventStep {
    /// `mov byte [datum], 1`
    Cover(u8),
    /// `inc qword [datum]`, with LOCK or without
    CountUp(bool, u8),
    /// `mov [datum], rax`
    Store(u8),
    /// `mov rax, [datum]`
    Load(u8),
    /// `mov [datum], eax`
    StoreLow(u8),
    /// `mov eax, [datum]`
    LoadLow(u8),
    /// `mov r, rax`
    Keep(u8),
    /// `mov rax, r`
    Give(u8),
    /// `lea rax, [rax + 1]`
    #[default]
    Raise,
    /// `mov eax, n`
    SetLow(u32),
    /// `lea eax, [rax + 1]`
    NextLow,
    /// `cmp eax, n`
    CompareLow(u32),
    /// `movzx eax, ax`, or `movzx eax, al`
    Reduce(bool),
    /// `mov dword [4 * rax + array], n`
    Put(u8, u32),
    /// `lock xadd [datum], eax`
    Claim(u8),
    /// `lahf`
    IntoAh,
    /// `seto al`
    IntoAl,
    /// `add al, 127`, which overflows exactly where al is 1
    FromAl,
    /// `sahf`
    FromAh,
    /// `cmp r, n`
    Compare(u8, u32),
    /// `cmp qword [datum], n`
    CompareAt(u8, u32),
    /// a short jump over so many of the next steps where the condition of a code is met
    SkipIf(u8, u8),
}
