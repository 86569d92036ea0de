//! What a board is made of.
ghost use Rattle.std.specs.Prelude.{◌≡◌, IfSome, MatchOption, ◌≢◌};
ghost use Rattle.play.specs.declared.setup.Order.{Order};
ghost use Rattle.play.specs.declared.setup.Platform.{Platform};
ghost use Rattle.play.specs.declared.setup.Slack.{Slack};
ghost use Rattle.play.specs.Setup.{order_word, platform_word, setup_line, slack_word};

use crate::words::cut;

/// The rule that shares slack out.
#[derive(Debug, Clone, Copy, PartialEq, Eq)]
pub(crate) enum Slack {
    Even,
    Proportional,
}

/// The order in which engines are tried.
#[derive(Debug, Clone, Copy, PartialEq, Eq)]
pub(crate) enum Order {
    Fullest,
    Rota,
}

/// How the engines of the platform text serve: by their marks, or in every tick.
#[derive(Debug, Clone, Copy, PartialEq, Eq)]
pub(crate) enum Platform {
    Calendar,
    Whole,
}

/// What the first line of a history names.
#[derive(Debug, Clone, Copy, PartialEq, Eq)]
pub(crate) struct Setup {
    pub(crate) slack: Slack,
    pub(crate) order: Order,
    pub(crate) platform: Platform,
}

/// The slack rule with the name.
fn slack_of(word: &[u8]) -> Option<Slack>
    ensures { MatchOption result ((s : Slack) → word.now ≢ slack_word s) (λ s. word.now ≡ slack_word s) }
{
    if word == b"even".as_slice() {
        Some(Slack::Even)
    } else if word == b"proportional".as_slice() {
        Some(Slack::Proportional)
    } else {
        None
    }
}

/// The order with the name.
fn order_of(word: &[u8]) -> Option<Order>
    ensures { MatchOption result ((o : Order) → word.now ≢ order_word o) (λ o. word.now ≡ order_word o) }
{
    if word == b"fullest".as_slice() {
        Some(Order::Fullest)
    } else if word == b"rota".as_slice() {
        Some(Order::Rota)
    } else {
        None
    }
}

/// The platform with the name.
fn platform_of(word: &[u8]) -> Option<Platform>
    ensures { MatchOption result ((p : Platform) → word.now ≢ platform_word p) (λ p. word.now ≡ platform_word p) }
{
    if word == b"calendar".as_slice() {
        Some(Platform::Calendar)
    } else if word == b"whole".as_slice() {
        Some(Platform::Whole)
    } else {
        None
    }
}

/// What the first line of a history names.
pub(crate) fn read_setup(line: &[u8]) -> Option<Setup>
    ensures { IfSome result (λ s. line.now ≡ setup_line s) }
{
    let (slack, names) = cut(line.strip_prefix(b"board ")?);
    let (order, platform) = cut(names?);
    Some(Setup {
        slack: slack_of(slack)?,
        order: order_of(order)?,
        platform: platform_of(platform?)?,
    })
}
