//! The numbers from which a guest is made.
ghost use Rattle.std.specs.Prelude.{◌≡◌};
ghost use Rattle.guest_gen.specs.Blocks.{advance, after_block, drawn, kind_at, number_at};

/// The steps of the generator, modulo 2^64: a factor and what is added.
const FACTOR: u64 = 6_364_136_223_846_793_005;

const ADDED: u64 = 1_442_695_040_888_963_407;

/// The number of kinds of blocks.
const KINDS: u32 = 16;

/// What is drawn of a block: its kind, and the number that it holds, 0 where its kind holds none.
#[derive(Clone, Copy, Debug, PartialEq, Eq)]
pub(crate) struct Drawn {
    pub(crate) kind: u32,
    pub(crate) number: u32,
}

/// Draws 32 bits.
fn draw(x: &mut u64) -> u32
    ensures drawn { result ≡ drawn x.old }
    ensures next { x.new ≡ advance x.old }
{
    *x = x.wrapping_mul(FACTOR).wrapping_add(ADDED);
    (*x / 0x1_0000_0000) as u32
}

/// Draws a block: its kind, and then its number, where the kind holds one.
pub(crate) fn draw_block(x: &mut u64) -> Drawn
    ensures kind { result.kind ≡ kind_at x.old }
    ensures number { result.number ≡ number_at x.old }
    ensures next { x.new ≡ after_block x.old }
{
    let kind = draw(x) % KINDS;
    if kind == 2 || kind == 3 {
        let number = draw(x);
        Drawn { kind, number }
    } else {
        Drawn { kind, number: 0 }
    }
}
