//! A platform whose engines follow marks.
ghost use Rattle.std.specs.Prelude.{◌≡◌, ◌≤◌, length, map, MatchOption, option_copied, slice_get};
ghost use Rattle.engine.specs.Calendar.{Matching, AllFit, calendar, calendar_laws, cycle_of, quota_of, supply_of};
ghost use Rattle.engine.specs.CalendarLaws.{calendar_missing};
ghost use Rattle.engine.specs.Marks.{marked};
ghost use Rattle.engine.specs.TagLaws.{rostered_tags};
ghost use Rattle.engine.specs.Tags.{tag_list};
ghost use Rattle.few.specs.Few.{items};

use crate::course::Course;
use crate::marks::Marks;
use crate::roster::{ENGINES, Roster};
use crate::supply::{FARTHEST, Supply};
use crate::tags::Tags;
use few::few::Few;

/// Engines that serve the ticks of their marks, over and over.
#[derive(Debug, Clone, Copy, PartialEq, Eq)]
pub struct Calendar {
    tags: Tags,
    // Beside the tags and not one with them, since tags are a type that other platforms have too.
    courses: Few<Course, ENGINES>,
    ghost paired: { length (items courses) ≡ length (tag_list tags) },
}

/// The courses of these marks; nothing where some marks are not fit.
fn courses(marks: &[Marks]) -> Option<Few<Course, ENGINES>>
    requires { (1 ≤ length marks.now) × (length marks.now ≤ 16) }
    ensures { MatchOption result (AllFit marks.now → ⊥) (λ cs. AllFit marks.now × (calendar (items cs) ≡ map marked marks.now)) }
{
    // The first course fills the places, and is made once.
    let (first, others) = marks.split_first()?;
    let course = Course::new(first)?;
    let mut courses = Few::new(course);
    courses.push(course).unwrap();
    for each in others {
        courses.push(Course::new(each)?).unwrap();
    }
    Some(courses)
}

impl Calendar {
    /// The platform of these tags and marks; nothing where there are not as many marks as tags, or some are not fit.
    pub fn new(tags: Tags, marks: &[Marks]) -> Option<Calendar>
        ensures { MatchOption result (Matching (tag_list tags) marks.now → ⊥) (λ p. Matching (tag_list tags) marks.now × (p.tags ≡ tags) × (calendar (items p.courses) ≡ map marked marks.now)) }
    {
        if marks.len() != tags.count() {
            return None;
        }
        Some(Calendar {
            tags,
            courses: courses(marks)?,
        })
    }

    fn course(&self, engine: usize) -> Option<&Course>
        ensures { option_copied result ≡ slice_get (items self.now.courses) engine }
    {
        self.courses.get(engine)
    }
}

impl Roster for Calendar {
    ghost tags = { λ p. tag_list p.tags };

    ghost rostered = { λ p. rostered_tags p.tags };

    // Each platform hands on to its tags: a trait that says it once would ask every roster for such tags.
    fn engines(&self) -> usize {
        self.tags.count()
    }

    fn tag(&self, engine: usize) -> Option<u32> {
        self.tags.tag(engine)
    }
}

impl Supply for Calendar {
    ghost supply = { λ p. supply_of (items p.courses) };

    ghost cycle = { λ p. cycle_of (items p.courses) };

    ghost quota = { λ p. quota_of (items p.courses) };

    ghost laws = { λ p. calendar_laws (items p.courses) };

    ghost missing = { λ p. calendar_missing (tag_list p.tags) (items p.courses) p.paired };

    fn supply(&self, engine: usize, ticks: u32) -> u32 {
        self.course(engine)
            .map_or(0, |course| course.supply(ticks.min(FARTHEST)))
    }

    fn cycle(&self, engine: usize) -> u32 {
        self.course(engine).map_or(1, |course| course.cycle())
    }

    fn quota(&self, engine: usize) -> u32 {
        self.course(engine).map_or(0, |course| course.quota())
    }
}
