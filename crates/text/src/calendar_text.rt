//! Reading a calendar from a platform text.
ghost use Rattle.std.specs.Prelude.{◌≤◌, All, map, length, MatchResult};
ghost use Rattle.engine.specs.Marks.{Fit};
ghost use Rattle.engine.specs.Roster.{Rostered};
ghost use Rattle.text.specs.CalendarText.{CalendarOf, CalendarReads};
ghost use Rattle.text.specs.PlatformText.{Refused};

use crate::fault::Fault;
use crate::platform_text::{Engine, read_platform};
use engine::calendar::Calendar;
use engine::marks::Marks;
use engine::roster::ENGINES;
use engine::tags::Tags;
use few::few::Few;

/// The calendar of engines that are described, which are fit.
fn make_calendar(engines: &[Engine]) -> Calendar
    requires { (length engines.now ≤ 16) × Rostered (map (λ e. e.tag) engines.now) × All Fit (map (λ e. e.marks) engines.now) }
    ensures { CalendarOf engines.now result }
{
    let mut tags: Few<u32, ENGINES> = Few::new(0);
    let mut marks: Few<Marks, ENGINES> = Few::new(Marks {
        served: Few::new(false),
    });
    for engine in engines {
        tags.push(engine.tag).unwrap();
        marks.push(engine.marks).unwrap();
    }
    let engine_tags = Tags::new(&tags).unwrap();
    Calendar::new(engine_tags, &marks).unwrap()
}

/// The calendar that a platform text describes.
pub fn read_calendar(text: &[u8]) -> Result<Calendar, Fault>
    ensures { MatchResult result (CalendarReads text.now) (Refused text.now) }
{
    let platform = read_platform(text)?;
    Ok(make_calendar(&platform.engines))
}
