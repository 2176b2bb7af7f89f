// Clashes: meetings at which neither shuttle leaves strictly before the other enters.
ghost use Rattle.std.specs.Prelude.{◌≡◌, MatchResult};
ghost use Rattle.meetings.specs.Meetings.{clashes, NoClash, FirstClash};

use crate::meet::{left_before, meet};
use crate::stays::{At, Stay};

// The two stops of a clash, that of the lower shuttle first.
#[derive(Clone, Copy, PartialEq, Eq, Debug)]
pub struct Clash {
    pub lower: At,
    pub other: At,
}

pub(crate) fn clashing(a: &Stay, b: &Stay) -> bool
    ensures { result ≡ clashes a.now b.now }
{
    meet(a, b) && !left_before(a, b) && !left_before(b, a)
}

// The first clash of stays in shuttle and stop order: the first pair of stays, an earlier and a later one, that clashes.
pub(crate) fn first_clash(stays: &[Stay]) -> Result<(), Clash>
    ensures { MatchResult result (λ _. NoClash stays.now) (λ c. FirstClash stays.now c) }
{
    let mut found = None;
    'pairs: for (k, a) in stays.iter().enumerate() {
        for b in &stays[k + 1..] {
            if clashing(a, b) {
                found = Some(Clash {
                    lower: a.at,
                    other: b.at,
                });
                break 'pairs;
            }
        }
    }
    match found {
        None => Ok(()),
        Some(clash) => Err(clash),
    }
}
