//! After how many pulses a share of the ways of the coins has stabilised.
ghost use Rattle.std.specs.Prelude.{◌≡◌, ◌↔◌, ◌*◌, ◌≤◌, IsTrue};
ghost use Rattle.explored.specs.declared.found.TheConstants.{ODDS_WHOLE};
ghost use Rattle.exploration.specs.Answers.{IsReach, IsReachAsked};

use crate::answer::Reach;
use explored::{ODDS_WHOLE, Odds, Share};

/// Returns true if this many parts of the whole are at least the share.
fn is_share(share: Share, parts: u64) -> bool
    ensures { IsTrue result ↔ (share.parts * ODDS_WHOLE ≤ parts * share.of) }
{
    u128::from(share.parts) * u128::from(ODDS_WHOLE) <= u128::from(parts) * u128::from(share.of)
}

/// Returns the least number of pulses after which the share has stabilised, if there is one.
fn reach_of(share: Share, parts: &[u64]) -> Reach
    ensures share { result.share ≡ share }
    ensures reach { IsReach parts.now result }
{
    for (pulses, at_least) in parts.iter().enumerate() {
        if is_share(share, *at_least) {
            return Reach {
                share,
                pulses: Some(pulses as u64),
            };
        }
    }
    Reach {
        share,
        pulses: None,
    }
}

/// Returns it if a share was asked, and the odds are known.
pub fn reach_asked(share: Option<Share>, odds: &Option<Odds>) -> Option<Reach>
    ensures { IsReachAsked share odds.now result }
{
    let share = share?;
    match odds {
        Some(Odds::Known { parts, .. }) => Some(reach_of(share, parts)),
        Some(Odds::Unknown { .. }) | None => None,
    }
}
