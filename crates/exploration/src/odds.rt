//! Odds, the mean, and when a share has stabilised, as text.
ghost use Rattle.std.specs.Prelude.{◌≡◌, ◌-◌, Some, codes, length, option_map};
ghost use Rattle.exploration.specs.Answers.{hundredths_down, hundredths_up, is_most_shown, last_pulses, last_share, least_mean_text, mean_text, most_odds_text, odds_text, percent_text, pulses_text, reach_text, tenths_down, tenths_up, with_count, within_text};

use crate::answer::Reach;
use explored::{MEAN_UNIT, ODDS_WHOLE, Odds, Share};
use std::fmt;

/// A number of things, by their word.
#[derive(Clone, Copy)]
pub(crate) struct Counted {
    pub(crate) count: u64,
    pub(crate) word: &'static str,
}

impl fmt::Display for Counted {
    ghost output = { λ counted. Some (with_count counted.count counted.word.now) };

    fn fmt<W: fmt::Write>(&self, f: &mut fmt::Formatter<W>) -> fmt::Result {
        let Counted { count, word } = *self;
        if count == 1 {
            write!(f, "{count} {word}")
        } else {
            write!(f, "{count} {word}s")
        }
    }
}

/// Returns the text of a number of pulses.
pub(crate) fn pulses(count: u64) -> Counted
    ensures count { result.count ≡ count }
    ensures word { result.word.now ≡ codes "pulse" }
{
    Counted {
        count,
        word: "pulse",
    }
}

/// Returns a share of the whole in tenths of a percent, rounded down.
fn tenths_down(parts: u64) -> u128
    ensures { result ≡ tenths_down parts }
{
    u128::from(parts) * 1000 / u128::from(ODDS_WHOLE)
}

/// Returns a share of the whole in tenths of a percent, rounded up.
fn tenths_up(parts: u64) -> u128
    ensures { result ≡ tenths_up parts }
{
    (u128::from(parts) * 1000 + u128::from(ODDS_WHOLE - 1)) / u128::from(ODDS_WHOLE)
}

/// Tenths of a percent, in percent with one decimal place.
#[derive(Clone, Copy)]
struct Percent(u128);

impl fmt::Display for Percent {
    ghost output = { λ percent. Some (percent_text percent.0) };

    fn fmt<W: fmt::Write>(&self, f: &mut fmt::Formatter<W>) -> fmt::Result {
        let whole = self.0 / 10;
        let rest = self.0 % 10;
        write!(f, "{whole}.{rest} %")
    }
}

/// Returns the number of the last entry, and the entry: 0 of none.
fn last_of(parts: &[u64]) -> (u64, u64)
    ensures last { result.0 ≡ length parts.now - 1 }
    ensures share { result.1 ≡ last_share parts.now }
{
    let last = parts.len().saturating_sub(1);
    match parts.get(last) {
        Some(share) => (last as u64, *share),
        None => (last as u64, 0),
    }
}

/// Returns the last entry of the other side, if it is known.
fn last_most(most_parts: &Option<Vec<u64>>) -> Option<u64>
    ensures { result ≡ option_map (λ most. last_share most.items) most_parts.now }
{
    match most_parts {
        Some(most) => Some(last_of(most).1),
        None => None,
    }
}

/// Returns true if the other side is less than the whole, and differs from the share at the precision that is shown.
fn is_most_shown(share: u64, most: u64) -> bool
    ensures { result ≡ is_most_shown share most }
{
    most < ODDS_WHOLE && tenths_down(share) < tenths_down(most)
}

/// How unlikely some adversary keeps it that the clocks stabilise, if that is shown.
#[derive(Clone, Copy)]
struct MostOdds {
    share: u64,
    most: Option<u64>,
}

impl fmt::Display for MostOdds {
    ghost output = { λ odds. Some (most_odds_text odds.share odds.most) };

    fn fmt<W: fmt::Write>(&self, f: &mut fmt::Formatter<W>) -> fmt::Result {
        let Some(most) = self.most else {
            return Ok(());
        };
        if is_most_shown(self.share, most) {
            let percent = Percent(tenths_up(most));
            write!(f, "; some adversary keeps them at most {percent}")
        } else {
            Ok(())
        }
    }
}

/// How likely the clocks stabilise within some pulses: at least, and at most.
#[derive(Clone, Copy)]
struct OddsWithin {
    pulses: u64,
    share: u64,
    most: Option<u64>,
}

impl fmt::Display for OddsWithin {
    ghost output = { λ odds. Some (within_text odds.pulses odds.share odds.most) };

    fn fmt<W: fmt::Write>(&self, f: &mut fmt::Formatter<W>) -> fmt::Result {
        let OddsWithin {
            pulses: count,
            share,
            most,
        } = *self;
        let percent = Percent(tenths_down(share));
        let pulses = pulses(count);
        let other = MostOdds { share, most };
        write!(
            f,
            "odds: at least {percent} within {pulses} ({share} of {ODDS_WHOLE} parts), whatever the adversary sends{other}"
        )
    }
}

/// Returns the odds within the last number of pulses.
fn odds_within(parts: &Vec<u64>, most_parts: &Option<Vec<u64>>) -> OddsWithin
    ensures pulses { result.pulses ≡ length parts.now.items - 1 }
    ensures share { result.share ≡ last_share parts.now.items }
    ensures most { result.most ≡ option_map (λ most. last_share most.items) most_parts.now }
{
    let (pulses, share) = last_of(parts);
    let most = last_most(most_parts);
    OddsWithin {
        pulses,
        share,
        most,
    }
}

/// How likely the clocks stabilise.
#[derive(Clone, Copy)]
pub(crate) struct OddsText<'a>(pub(crate) &'a Odds);

impl fmt::Display for OddsText<'_> {
    ghost output = { λ text. Some (odds_text text.0.now) };

    fn fmt<W: fmt::Write>(&self, f: &mut fmt::Formatter<W>) -> fmt::Result {
        match self.0 {
            Odds::Known {
                parts,
                most_parts,
                ..
            } => {
                let odds = odds_within(parts, most_parts);
                write!(f, "{odds}")
            }
            Odds::Unknown { memory: true } => write!(
                f,
                "odds not decided: --memory allows no more"
            ),
            Odds::Unknown { memory: false } => {
                write!(
                    f,
                    "odds not decided: a state has more choices than --states allows"
                )
            }
        }
    }
}

/// Returns the parts of a pulse in hundredths of a pulse, rounded up.
fn hundredths_up(parts: u64) -> u128
    ensures { result ≡ hundredths_up parts }
{
    (u128::from(parts) * 100 + u128::from(MEAN_UNIT - 1)) / u128::from(MEAN_UNIT)
}

/// Returns the parts of a pulse in hundredths of a pulse, rounded down.
fn hundredths_down(parts: u64) -> u128
    ensures { result ≡ hundredths_down parts }
{
    u128::from(parts) * 100 / u128::from(MEAN_UNIT)
}

/// Hundredths of a pulse, in pulses with two decimal places.
#[derive(Clone, Copy)]
struct Hundredths(u128);

impl fmt::Display for Hundredths {
    ghost output = { λ hundredths. Some (pulses_text hundredths.0) };

    fn fmt<W: fmt::Write>(&self, f: &mut fmt::Formatter<W>) -> fmt::Result {
        let whole = self.0 / 100;
        let tenth = self.0 / 10 % 10;
        let hundredth = self.0 % 10;
        write!(f, "{whole}.{tenth}{hundredth}")
    }
}

/// How many pulses some adversary makes the mean at least, if that differs from the bound as shown.
#[derive(Clone, Copy)]
struct LeastMean {
    most: u64,
    least: Option<u64>,
}

impl fmt::Display for LeastMean {
    ghost output = { λ mean. Some (least_mean_text mean.most mean.least) };

    fn fmt<W: fmt::Write>(&self, f: &mut fmt::Formatter<W>) -> fmt::Result {
        let Some(least) = self.least else {
            return Ok(());
        };
        if hundredths_up(least) < hundredths_up(self.most) {
            let pulses = Hundredths(hundredths_down(least));
            write!(f, "; some adversary makes it at least {pulses}")
        } else {
            Ok(())
        }
    }
}

/// How many pulses pass on average: at most, and at least.
#[derive(Clone, Copy)]
pub(crate) struct MeanText {
    pub(crate) most: Option<u64>,
    pub(crate) least: Option<u64>,
}

impl fmt::Display for MeanText {
    ghost output = { λ mean. Some (mean_text mean.most mean.least) };

    fn fmt<W: fmt::Write>(&self, f: &mut fmt::Formatter<W>) -> fmt::Result {
        match self.most {
            Some(most) => {
                let pulses = Hundredths(hundredths_up(most));
                let other = LeastMean {
                    most,
                    least: self.least,
                };
                write!(
                    f,
                    "mean: at most {pulses} pulses until the clocks stabilise, whatever the adversary sends{other}"
                )
            }
            None => write!(f, "mean: no bound found"),
        }
    }
}

/// Returns the last number of pulses whose odds are told.
pub(crate) fn last_pulses(odds: &Option<Odds>) -> u64
    ensures { result ≡ last_pulses odds.now }
{
    match odds {
        Some(Odds::Known { parts, .. }) => last_of(parts).0,
        Some(Odds::Unknown { .. }) | None => 0,
    }
}

/// After how many pulses a share has stabilised, if it has after this last number of them.
#[derive(Clone, Copy)]
pub(crate) struct ReachText {
    pub(crate) last: u64,
    pub(crate) reach: Reach,
}

impl fmt::Display for ReachText {
    ghost output = { λ text. Some (reach_text text.last text.reach) };

    fn fmt<W: fmt::Write>(&self, f: &mut fmt::Formatter<W>) -> fmt::Result {
        let Share { parts, of } = self.reach.share;
        match self.reach.pulses {
            Some(count) => {
                let pulses = pulses(count);
                write!(f, "reach: at least {parts} of {of} within {pulses}")
            }
            None => {
                let pulses = pulses(self.last);
                write!(f, "reach: less than {parts} of {of} within {pulses}")
            }
        }
    }
}
