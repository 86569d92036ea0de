//! The values of lines.
ghost use Rattle.std.specs.Prelude.{◌≡◌, ℕ, ◌+◌, ◌<◌, ◌≤◌, true, ◌||◌, length, Decides, MatchOption, ◌≢◌, ◌==◌, slice_index, slice_set};
ghost use Rattle.std.specs.List.{list_all};
ghost use Rattle.text.specs.declared.value.Kind.{Kind};
ghost use Rattle.text.specs.Value.{Form, Gathers, Listed, Marked, Means, Numeral, word};

use crate::key::Sort;
use task::node::{After, NODES};

/// The value of a line.
#[derive(Debug, Clone, Copy, PartialEq, Eq)]
pub enum Value<'a> {
    Number(u32),
    Kind(Kind),
    List(Numbers),
    /// Zeros and ones of the text that it was read from.
    Marks(&'a [u8]),
}

/// The value of a line, with the line's number from 1.
#[derive(Debug, Clone, Copy, PartialEq, Eq)]
pub struct Line<'a> {
    pub number: u32,
    pub value: Value<'a>,
}

/// What a node is.
#[derive(Debug, Clone, Copy, PartialEq, Eq)]
pub enum Kind {
    SubTask,
    Alternative,
    Conditional,
}

// 0 and no option at the end of none, so that a node is compared once.
/// Rising numbers, or none: `places` has a truth value for each number below 24, true where it is one of them, and `end` is one more than the last number, 0 for none.
#[derive(Debug, Clone, Copy, PartialEq, Eq)]
pub struct Numbers {
    pub places: After,
    pub end: u32,
}

impl Numbers {
    /// Puts a number behind the others.
    fn push(&mut self, number: u32)
        requires { number < 1000000000 }
        ensures { self.new ≡ record { places = slice_set self.old.places number true; end = number + 1 } }
    {
        // Not `get_mut`, whose contract says nothing of the places after the write.
        if number < NODES as u32 {
            self.places[number as usize] = true;
        }
        self.end = number + 1;
    }
}

/// Whether there are one to nine bytes, the first of several not a zero.
fn is_short(bytes: &[u8]) -> bool
    ensures { Decides result ((0 < length bytes.now) × (length bytes.now ≤ 9) × (slice_index bytes.now 0 ≡ 48 → length bytes.now ≡ 1)) }
{
    match bytes {
        [] | [b'0', _, ..] => false,
        _ => bytes.len() <= 9,
    }
}

/// The number that the bytes write: one to nine digits, with no zero in front but in 0 itself.
// Not `parse`, which takes a plus sign.
fn number(bytes: &[u8]) -> Option<u32>
    ensures { MatchOption result ((n : ℕ) → Numeral n bytes.now → ⊥) (λ n. Numeral n bytes.now) }
{
    if !is_short(bytes) {
        return None;
    }
    let mut number = 0;
    for byte in bytes {
        let digit = char::from(*byte).to_digit(10)?;
        number = number * 10 + digit;
    }
    Some(number)
}

/// The numbers of a list: rising, with commas between, or a dash for none.
fn list(bytes: &[u8]) -> Option<Numbers>
    ensures { MatchOption result (Listed (λ _. Unit {0}) bytes.now → ⊥) (λ numbers. Gathers numbers bytes.now) }
{
    let mut numbers = Numbers {
        places: [false; NODES],
        end: 0,
    };
    if bytes == b"-".as_slice() {
        return Some(numbers);
    }
    for part in bytes.split(|byte| *byte == b',') {
        let number = number(part)?;
        if number < numbers.end {
            return None;
        }
        numbers.push(number);
    }
    Some(numbers)
}

/// The kind that the word names.
fn kind_of(bytes: &[u8]) -> Option<Kind>
    ensures { MatchOption result ((k : Kind) → bytes.now ≢ word k) (λ k. bytes.now ≡ word k) }
{
    match bytes {
        b"subtask" => Some(Kind::SubTask),
        b"alternative" => Some(Kind::Alternative),
        b"conditional" => Some(Kind::Conditional),
        _ => None,
    }
}

/// Whether the bytes are zeros and ones.
fn are_bits(bytes: &[u8]) -> bool
    ensures { result ≡ list_all (λ b. b == 48 || b == 49) bytes.now }
{
    bytes.iter().all(|byte| *byte == b'0' || *byte == b'1')
}

/// Whether the bytes are zeros and ones, one or more.
fn are_marks(bytes: &[u8]) -> bool
    ensures { Decides result (Marked (λ _. Unit {0}) bytes.now) }
{
    !bytes.is_empty() && are_bits(bytes)
}

impl Sort {
    /// The value that the bytes write.
    pub fn read(self, bytes: &[u8]) -> Option<Value<'_>>
        ensures { MatchOption result (Form self bytes.now → ⊥) (λ value. Means self bytes.now value) }
    {
        match self {
            Sort::Number => Some(Value::Number(number(bytes)?)),
            Sort::Kind => Some(Value::Kind(kind_of(bytes)?)),
            Sort::List => Some(Value::List(list(bytes)?)),
            Sort::Marks => are_marks(bytes).then_some(Value::Marks(bytes)),
        }
    }
}
