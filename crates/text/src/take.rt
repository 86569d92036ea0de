//! Taking the due lines of a text.
ghost use Rattle.std.specs.Prelude.{◌≡◌, ℕ, ◌+◌, ◌<◌, true, [], ◌∷◌, length, decimal, MatchOption, MatchResult};
ghost use Rattle.engine.specs.Marks.{marked};
ghost use Rattle.text.specs.Key.{sort_of};
ghost use Rattle.text.specs.Slots.{MarksFit, Missized, number_fits, slot};
ghost use Rattle.text.specs.Take.{Due, Misses, Starts, Takes};
ghost use Rattle.text.specs.Value.{Lower, Marked, listed, mark_bytes, places, word};
ghost use Rattle.text.specs.declared.key.Sort.{Sort};

use crate::fault::Fault;
use crate::key::Key;
use crate::lines::{Lines, TEXT_BYTES};
use crate::split::split_once;
use crate::value::{Kind, Line, Value};
use engine::marks::Marks;
use engine::roster::ENGINES;
use few::few::Few;
use task::node::After;
use task::ranges::Field;

impl Key {
    /// Whether the number lies in the range of the key.
    fn fits(self, number: u32) -> bool
        ensures { result ≡ number_fits self number }
    {
        match self {
            Key::Job => Field::Number(number).is_fit(),
            Key::Period => Field::Period(number).is_fit(),
            Key::Deadline { period } => (Field::Deadline {
                period,
                deadline: number,
            })
            .is_fit(),
            Key::Nodes => Field::Count(number).is_fit(),
            Key::Tag => Field::Tag(number).is_fit(),
            Key::Ticks => Field::Work(number).is_fit(),
            Key::Engines => (1..=ENGINES as u32).contains(&number),
            Key::Kind | Key::After { .. } | Key::Marks => false,
        }
    }
}

/// The marks that the bytes write; nothing where there are more than 240, or they are not fit.
fn marks_of(bytes: &[u8]) -> Option<Marks>
    requires { Marked (λ _. Unit {0}) bytes.now }
    ensures { MatchOption result (Marked MarksFit bytes.now → ⊥) (λ m. (bytes.now ≡ mark_bytes (marked m)) × Marked MarksFit bytes.now) }
{
    let mut served = Few::new(false);
    for byte in bytes {
        served.push(*byte == b'1').ok()?;
    }
    let marks = Marks { served };
    marks.is_fit().then_some(marks)
}

impl<'a> Lines<'a> {
    /// All of a text, of which no line is taken yet.
    pub(crate) fn of(text: &'a [u8]) -> Result<Lines<'a>, Fault>
        ensures { MatchResult result (Starts text.now) (λ f. Missized text.now × (f ≡ Fault.Size)) }
    {
        if text.is_empty() || text.len() > TEXT_BYTES {
            return Err(Fault::Size);
        }
        Ok(Lines {
            rest: text,
            number: 0,
        })
    }

    /// Takes the next line, which is to have this key.
    fn due(&mut self, key: Key) -> Result<Line<'a>, Fault>
        ensures { MatchResult result (λ line. Due key self.old line self.new) (Misses key self.old) }
    {
        let line = self.number + 1;
        let (front, rest) = split_once(self.rest, b'\n').ok_or(Fault::Line { line })?;
        let bytes = key.value_of(front).ok_or(Fault::Line { line })?;
        let value = key.sort().read(bytes).ok_or(Fault::Form { line })?;
        self.rest = rest;
        self.number = line;
        Ok(Line {
            number: line,
            value,
        })
    }

    /// Takes the next line, which is to hold a number in the range of this key.
    pub(crate) fn number(&mut self, key: Key) -> Result<u32, Fault>
        requires { sort_of key ≡ Sort.Number }
        ensures { MatchResult result (λ n. Takes (slot key (decimal n) ∷ []) self.old self.new × (number_fits key n ≡ true)) (Misses key self.old) }
    {
        let line = self.due(key)?;
        let fault = Fault::Range { line: line.number };
        match line.value {
            Value::Number(n) if key.fits(n) => Ok(n),
            Value::Number(_) | Value::Kind(_) | Value::List(_) | Value::Marks(_) => Err(fault),
        }
    }

    /// Takes the next line, which is to name a kind.
    pub(crate) fn kind(&mut self) -> Result<Kind, Fault>
        ensures { MatchResult result (λ k. Takes (slot Key.Kind (word k) ∷ []) self.old self.new) (Misses Key.Kind self.old) }
    {
        let line = self.due(Key::Kind)?;
        let fault = Fault::Form { line: line.number };
        match line.value {
            Value::Kind(kind) => Ok(kind),
            Value::Number(_) | Value::List(_) | Value::Marks(_) => Err(fault),
        }
    }

    // The number is asked for below 24, as wherever a table over nodes is read: a type for it would be opened at each index.
    /// Takes the next line, which is to list nodes below `node`.
    pub(crate) fn after(&mut self, node: usize) -> Result<After, Fault>
        requires { node < 24 }
        ensures { MatchResult result (λ us. Takes (slot (Key.After node) (listed (places us)) ∷ []) self.old self.new × Lower node us) (Misses (Key.After node) self.old) }
    {
        let line = self.due(Key::After { node })?;
        let fault = Fault::Range { line: line.number };
        match line.value {
            Value::List(numbers) if numbers.end as usize <= node => Ok(numbers.places),
            Value::Number(_) | Value::Kind(_) | Value::List(_) | Value::Marks(_) => Err(fault),
        }
    }

    /// Takes the next line, which is to hold the marks of an engine.
    pub(crate) fn marks(&mut self) -> Result<Marks, Fault>
        ensures { MatchResult result (λ m. Takes (slot Key.Marks (mark_bytes (marked m)) ∷ []) self.old self.new) (Misses Key.Marks self.old) }
    {
        let line = self.due(Key::Marks)?;
        let fault = Fault::Range { line: line.number };
        match line.value {
            Value::Marks(bytes) => marks_of(bytes).ok_or(fault),
            Value::Number(_) | Value::Kind(_) | Value::List(_) => Err(fault),
        }
    }

    /// Nothing is to stand after the last line.
    pub(crate) fn end(&self) -> Result<(), Fault>
        ensures { MatchResult result (λ _. self.now.rest.now ≡ []) (λ f. (0 < length self.now.rest.now) × (f ≡ Fault.Line (self.now.number + 1))) }
    {
        if self.rest.is_empty() {
            Ok(())
        } else {
            Err(Fault::Line {
                line: self.number + 1,
            })
        }
    }
}
