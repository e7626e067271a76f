//! The word that names an action, as it is written.
ghost use Rattle.std.specs.Prelude.{◌≡◌, ◌+◌, ◌≤◌, ◌++◌, [], length, OnOk};
ghost use Rattle.std.specs.Fmt.{decimal};
ghost use Rattle.pun_base.specs.Actions.{listed};
ghost use Rattle.list_text.specs.ActionWords.{action_word, base_name, comparison_text, condition_text, op_name, register_name};

use arrayvec::ArrayVec;
use itoa::Buffer;
use pun_base::action::{Action, Base, CompareOp, Comparison, Comparisons};
use std::alloc::AllocError;
use std::marker::Model;

/// A register's name by its code.
pub(crate) fn register_name(reg: u8) -> &'static [u8]
    ensures value { result.now ≡ register_name reg }
    ensures short { length result.now ≤ 3 }
{
    match reg {
        0 => b"rax",
        1 => b"rcx",
        2 => b"rdx",
        3 => b"rbx",
        4 => b"rsp",
        5 => b"rbp",
        6 => b"rsi",
        7 => b"rdi",
        8 => b"r8",
        9 => b"r9",
        10 => b"r10",
        11 => b"r11",
        12 => b"r12",
        13 => b"r13",
        14 => b"r14",
        15 => b"r15",
        _ => b"",
    }
}

/// An operator's name.
fn op_name(op: CompareOp) -> &'static [u8]
    ensures value { result.now ≡ op_name op }
    ensures short { length result.now ≤ 2 }
{
    match op {
        CompareOp::Eq => b"==",
        CompareOp::Ne => b"!=",
        CompareOp::Lt => b"<",
        CompareOp::Le => b"<=",
        CompareOp::Gt => b">",
        CompareOp::Ge => b">=",
    }
}

/// The name of what is done where a condition holds.
fn base_name(base: Base) -> &'static [u8]
    ensures value { result.now ≡ base_name base }
    ensures short { length result.now ≤ 5 }
{
    match base {
        Base::Cover => b"cover",
        Base::Count => b"count",
    }
}

/// The word of an action so far. It lies in the value itself: the longest has 72 bytes.
#[derive(Drop)]
pub(crate) struct ActionWord {
    bytes: ArrayVec<u8, 72>,
}

impl Model for ActionWord {
    ghost use Rattle.std.specs.Prelude.{ℕ, List};

    ghost Value = { List ℕ };

    ghost view = { λ w. w.bytes.items };
}

impl ActionWord {
    /// No byte yet.
    fn new() -> Self
        ensures { result ≡ [] }
    {
        ActionWord {
            bytes: ArrayVec::new(),
        }
    }

    /// Writes bytes.
    fn put(&mut self, bytes: &[u8])
        requires { length self.old + length bytes.now ≤ 72 }
        ensures { self.new ≡ self.old ++ bytes.now }
    {
        self.bytes.try_extend_from_slice(bytes).unwrap();
    }

    /// Writes a number in decimal digits.
    fn put_number(&mut self, number: u32)
        requires { length self.old + 10 ≤ 72 }
        ensures value { self.new ≡ self.old ++ decimal number }
        ensures room { length self.new ≤ length self.old + 10 }
    {
        let mut buffer = Buffer::new();
        self.put(buffer.format(number).as_bytes());
    }

    /// Writes a comparison.
    fn put_comparison(&mut self, comparison: Comparison)
        requires { length self.old + 17 ≤ 72 }
        ensures value { self.new ≡ self.old ++ comparison_text comparison }
        ensures room { length self.new ≤ length self.old + 17 }
    {
        self.put(register_name(comparison.reg));
        self.put(b" ");
        self.put(op_name(comparison.op));
        self.put(b" ");
        self.put_number(comparison.value);
    }

    /// Writes comparisons, joined by `and`.
    fn put_condition(&mut self, list: Comparisons)
        requires { length self.old + 61 ≤ 72 }
        ensures { self.new ≡ self.old ++ condition_text (listed list) }
    {
        match list {
            Comparisons::One(first) => self.put_comparison(first),
            Comparisons::Two(first, second) => {
                self.put_comparison(first);
                self.put(b" and ");
                self.put_comparison(second);
            }
            Comparisons::Three(first, second, third) => {
                self.put_comparison(first);
                self.put(b" and ");
                self.put_comparison(second);
                self.put(b" and ");
                self.put_comparison(third);
            }
        }
    }

    /// The word of an action.
    pub(crate) fn of(action: Action) -> Self
        ensures { result ≡ action_word action }
    {
        let mut word = ActionWord::new();
        match action {
            Action::Cover => word.put(b"cover"),
            Action::Count => word.put(b"count"),
            Action::Ring { len } => {
                word.put(b"ring:");
                word.put_number(len);
            }
            Action::When { base, list } => {
                word.put(base_name(base));
                word.put(b" when ");
                word.put_condition(list);
            }
        }
        word
    }

    /// The bytes of the word.
    pub(crate) fn as_slice(&self) -> &[u8]
        ensures { result.now ≡ self.now }
    {
        self.bytes.as_slice()
    }
}

/// Appends the word that names an action.
pub fn push_action_word(out: &mut Vec<u8>, action: Action) -> Result<(), AllocError>
    ensures { OnOk result (out.new.items ≡ out.old.items ++ action_word action) }
{
    let word = ActionWord::of(action);
    out.extend_from_slice(word.as_slice())
}
