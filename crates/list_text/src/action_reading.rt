//! The action that a word names.
//!
//! What stands in the word is read by its parts, and the action counts where the word is just its own.
ghost use Rattle.std.specs.Prelude.{◌≡◌, option_map};
ghost use Rattle.list_text.specs.Words.{action_in, action_of, always, base_of, based_in, comparison_at, comparisons_in, op_of, register_of, ring_in};

use crate::action_words::{ActionWord, register_name};
use crate::digits::read_number;
use crate::parts::split_at_first;
use pun_base::action::{Action, Base, CompareOp, Comparison, Comparisons};

/// The most slots of a ring.
const MOST_SLOTS: u64 = 65_536;

/// The greatest number that a register is compared with: 31 bits.
const MOST_VALUE: u64 = 0x7FFF_FFFF;

/// The number of registers.
const REGISTERS: u8 = 16;

/// The code of the register of this name.
#[tactic(auto, unfolding(crate::specs::Words::register_of))]
fn read_register(name: &[u8]) -> Option<u8>
    ensures { result ≡ register_of name.now }
{
    for reg in 0..REGISTERS {
        if register_name(reg) == name {
            return Some(reg);
        }
    }
    None
}

/// The operator of this name.
#[tactic(auto, unfolding(crate::specs::Words::op_of))]
fn read_op(name: &[u8]) -> Option<CompareOp>
    ensures { result ≡ op_of name.now }
{
    match name {
        b"==" => Some(CompareOp::Eq),
        b"!=" => Some(CompareOp::Ne),
        b"<" => Some(CompareOp::Lt),
        b"<=" => Some(CompareOp::Le),
        b">" => Some(CompareOp::Gt),
        b">=" => Some(CompareOp::Ge),
        _ => None,
    }
}

/// The comparison that the first three words tell, and what stands behind them.
#[tactic(auto, unfolding(crate::specs::Words::comparison_at))]
fn take_comparison(text: &[u8]) -> Option<(Comparison, &[u8])>
    ensures { option_map (λ x. (x.0, x.1.now)) result ≡ comparison_at text.now }
{
    let (name, text) = split_at_first(text, b' ');
    let (op, text) = split_at_first(text, b' ');
    let (digits, later) = split_at_first(text, b' ');
    let reg = read_register(name)?;
    let op = read_op(op)?;
    let value = read_number(digits, 10, MOST_VALUE)?;
    let comparison = Comparison {
        reg,
        op,
        value: value as u32,
    };
    Some((comparison, later))
}

/// One to three comparisons, with a word between any two.
#[tactic(auto, unfolding(crate::specs::Words::comparisons_in))]
fn read_comparisons(text: &[u8]) -> Option<Comparisons>
    ensures { result ≡ comparisons_in text.now }
{
    let (first, text) = take_comparison(text)?;
    if text.is_empty() {
        return Some(Comparisons::One(first));
    }
    let (_and, text) = split_at_first(text, b' ');
    let (second, text) = take_comparison(text)?;
    if text.is_empty() {
        return Some(Comparisons::Two(first, second));
    }
    let (_and, text) = split_at_first(text, b' ');
    let (third, _later) = take_comparison(text)?;
    Some(Comparisons::Three(first, second, third))
}

/// What is done where a condition holds.
fn read_base(name: &[u8]) -> Option<Base>
    ensures { result ≡ base_of name.now }
{
    match name {
        b"cover" => Some(Base::Cover),
        b"count" => Some(Base::Count),
        _ => None,
    }
}

/// What is done at each event.
fn always(base: Base) -> Action
    ensures { result ≡ always base }
{
    match base {
        Base::Cover => Action::Cover,
        Base::Count => Action::Count,
    }
}

/// A base, or a base with the comparisons behind the second word.
#[tactic(auto, unfolding(crate::specs::Words::based_in))]
fn read_based(text: &[u8]) -> Option<Action>
    ensures { result ≡ based_in text.now }
{
    let (name, later) = split_at_first(text, b' ');
    let base = read_base(name)?;
    if later.is_empty() {
        return Some(always(base));
    }
    let (_when, condition) = split_at_first(later, b' ');
    let list = read_comparisons(condition)?;
    Some(Action::When { base, list })
}

/// A ring of so many slots.
#[tactic(auto, unfolding(crate::specs::Words::ring_in))]
fn read_ring(digits: &[u8]) -> Option<Action>
    ensures { result ≡ ring_in digits.now }
{
    let len = read_number(digits, 10, MOST_SLOTS)?;
    if len == 0 {
        return None;
    }
    Some(Action::Ring { len: len as u32 })
}

/// The action that the parts of a text tell.
#[tactic(auto, unfolding(crate::specs::Words::action_in))]
fn read_parts(text: &[u8]) -> Option<Action>
    ensures { result ≡ action_in text.now }
{
    match text.strip_prefix(b"ring:") {
        Some(digits) => read_ring(digits),
        None => read_based(text),
    }
}

/// The action that a word names: `cover`, `count`, `ring:N`, or `cover when C` and `count when C`.
///
/// N has 1 to 65,536 slots. C is one to three comparisons joined by ` and `: a register, `==`, `!=`, `<`, `<=`, `>` or
/// `>=`, and a number below 2^31, parted by one blank. Numbers are decimal without leading zeros.
pub fn read_action_word(word: &[u8]) -> Option<Action>
    ensures { result ≡ action_of word.now }
{
    let action = read_parts(word)?;
    if ActionWord::of(action).as_slice() == word {
        Some(action)
    } else {
        None
    }
}
