//! Reading a platform from its text.
ghost use Rattle.std.specs.Prelude.{◌≡◌, ◌≤◌, List, map, length, MatchResult};
ghost use Rattle.few.specs.Few.{items};
ghost use Rattle.text.specs.PlatformText.{Reads, Refused, Said, engine_slots, engines_slots, said};
ghost use Rattle.text.specs.Take.{Refuses, Takes};

use crate::fault::Fault;
use crate::key::Key;
use crate::lines::Lines;
use engine::marks::Marks;
use engine::roster::ENGINES;
use few::few::Few;

/// An engine's tag and its marks.
#[derive(Debug, Clone, Copy, PartialEq, Eq)]
pub struct Engine {
    pub tag: u32,
    pub marks: Marks,
}

/// The engines of a platform.
#[derive(Debug, Clone, Copy, PartialEq, Eq)]
pub struct Platform {
    pub engines: Few<Engine, ENGINES>,
}

impl Lines<'_> {
    /// Takes the lines of an engine.
    fn engine(&mut self) -> Result<Engine, Fault>
        ensures { MatchResult result (λ e. Takes (engine_slots (said e)) self.old self.new) (λ f. (s : Said) × Refuses (engine_slots s) self.old f) }
    {
        let tag = self.number(Key::Tag)?;
        let marks = self.marks()?;
        Ok(Engine { tag, marks })
    }

    /// Takes the lines of so many engines.
    // Not one function with that for nodes: it would take the lines of an item as a parameter of its contract, and be no plainer.
    fn engines(&mut self, count: usize) -> Result<Few<Engine, ENGINES>, Fault>
        requires { count ≤ 16 }
        ensures { MatchResult result (λ es. (length (items es) ≡ count) × Takes (engines_slots (map said (items es))) self.old self.new) (λ f. (ss : List Said) × (length ss ≡ count) × Refuses (engines_slots ss) self.old f) }
    {
        let mut engines = Few::new(Engine {
            tag: 0,
            marks: Marks {
                served: Few::new(false),
            },
        });
        for _ in 0..count {
            let engine = self.engine()?;
            engines.push(engine).unwrap();
        }
        Ok(engines)
    }
}

/// The platform that the text writes.
pub fn read_platform(text: &[u8]) -> Result<Platform, Fault>
    ensures { MatchResult result (Reads text.now) (Refused text.now) }
{
    let mut lines = Lines::of(text)?;
    let count = lines.number(Key::Engines)? as usize;
    let engines = lines.engines(count)?;
    lines.end()?;
    Ok(Platform { engines })
}
