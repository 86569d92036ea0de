//! What an input begins with.
ghost use Rattle.std.specs.Prelude.{MatchResult};
ghost use Rattle.listing.specs.Listing.{Opens, Stops};
ghost use Rattle.std.specs.Option.{option_map};

use engine::calendar::Calendar;
use text::calendar_text::read_calendar;
use text::fault::Fault;
use text::texts::first_text;

/// The most bytes that are read.
pub const MOST: usize = 65_536;

/// The platform of an input, and the job texts after it.
#[derive(Debug, Clone, Copy)]
pub struct Opened<'a> {
    pub platform: Calendar,
    pub texts: Option<&'a [u8]>,
}

/// What an input begins with, if it is not too long and its platform text is right.
pub fn open(input: &[u8]) -> Result<Opened<'_>, Fault>
    ensures { MatchResult result (λ o. Opens input.now o.platform (option_map (λ x. x.now) o.texts)) (Stops input.now) }
{
    if input.len() > MOST {
        return Err(Fault::Size);
    }
    let (text, texts) = first_text(input);
    let platform = read_calendar(text)?;
    Ok(Opened { platform, texts })
}
