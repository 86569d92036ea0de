//! Reading a platform that serves every tick.
ghost use Rattle.std.specs.Prelude.{◌≡◌, ◌≤◌, length, map, MatchResult};
ghost use Rattle.engine.specs.Roster.{Rostered};
ghost use Rattle.engine.specs.Tags.{tag_list};
ghost use Rattle.play.specs.Whole.{WholeReads};
ghost use Rattle.text.specs.PlatformText.{Refused};

use engine::roster::ENGINES;
use engine::tags::Tags;
use engine::whole::Whole;
use few::few::Few;
use text::fault::Fault;
use text::platform_text::{Engine, read_platform};

/// Engines with the tags of these, which serve every tick.
fn whole_of(engines: &[Engine]) -> Whole
    requires { (length engines.now ≤ 16) × Rostered (map (λ e. e.tag) engines.now) }
    ensures { tag_list result.tags ≡ map (λ e. e.tag) engines.now }
{
    let mut tags: Few<u32, ENGINES> = Few::new(0);
    for engine in engines {
        tags.push(engine.tag).unwrap();
    }
    Whole {
        tags: Tags::new(&tags).unwrap(),
    }
}

/// The engines of a platform text, with its tags and without its marks.
pub(crate) fn read_whole(text: &[u8]) -> Result<Whole, Fault>
    ensures { MatchResult result (WholeReads text.now) (Refused text.now) }
{
    let platform = read_platform(text)?;
    Ok(whole_of(&platform.engines))
}
