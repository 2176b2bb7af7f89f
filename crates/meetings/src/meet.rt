// Meetings: two stops of different shuttles at one place, in meeting order.
ghost use Rattle.std.specs.Prelude.{◌≡◌};
ghost use Rattle.meetings.specs.declared.meet.MeetingFault.TheVariants.{Collision, Memory};
ghost use Rattle.meetings.specs.Meetings.{is_left_before, meets, meeting_between};
ghost use Rattle.meetings.specs.Settled.{Found};

use crate::clash::{Clash, clashing};
use crate::stays::{At, Stay};
use std::alloc::{AllocError, AllocFailed, Global};

/// The most meetings that a plan may have.
pub const MOST_MEETINGS: usize = 256;

// Who goes first at a meeting.
#[derive(Clone, Copy, PartialEq, Eq, Debug)]
pub enum First {
    Lower,
    Other,
}

// Two stops at one place: that of the lower shuttle, that of the other, and who goes first in the plan.
#[derive(Clone, Copy, PartialEq, Eq, Debug)]
pub struct Meeting {
    pub lower: At,
    pub other: At,
    pub first: First,
}

// All meetings in order, and whether one of them clashes.
#[derive(Drop)]
pub(crate) struct Meetings {
    pub(crate) all: Vec<Meeting>,
    pub(crate) clash: bool,
}

// Why meetings cannot be settled: too many of them, two paths that collide, or want of memory.
#[derive(Clone, Copy, PartialEq, Eq, Debug)]
pub enum MeetingFault {
    TooMany,
    Collision(Clash),
    Memory,
}

// Want of memory comes as two types of error. The conversions are written out: a derived one (`thiserror`) has no clause that says what comes of it, and one generic over both would overlap with that of a clash.
impl From<Clash> for MeetingFault {
    ghost from_gives = { λ e r. r ≡ Collision e };

    fn from(e: Clash) -> MeetingFault {
        MeetingFault::Collision(e)
    }
}

impl From<AllocError> for MeetingFault {
    ghost from_gives = { λ _ r. r ≡ Memory };

    fn from(_e: AllocError) -> MeetingFault {
        MeetingFault::Memory
    }
}

impl<T: Drop> From<AllocFailed<T>> for MeetingFault {
    ghost from_gives = { λ _ r. r ≡ Memory };

    fn from(_e: AllocFailed<T>) -> MeetingFault {
        MeetingFault::Memory
    }
}

// Whether the first stay is over strictly before the second begins.
pub(crate) fn left_before(a: &Stay, b: &Stay) -> bool
    ensures { result ≡ is_left_before a.now b.now }
{
    a.leave.is_some_and(|tick| tick < b.enter)
}

// Whether the stays are of different shuttles at one place.
pub(crate) fn meet(a: &Stay, b: &Stay) -> bool
    ensures { result ≡ meets a.now b.now }
{
    a.at.shuttle != b.at.shuttle && a.place == b.place
}

fn meeting_of(a: &Stay, b: &Stay) -> Meeting
    ensures { result ≡ meeting_between a.now b.now }
{
    let first = if left_before(a, b) {
        First::Lower
    } else {
        First::Other
    };
    Meeting {
        lower: a.at,
        other: b.at,
        first,
    }
}

// The meetings of stays in shuttle and stop order, unless there are too many.
pub(crate) fn find_meetings(alloc: Global, stays: &[Stay]) -> Result<Meetings, MeetingFault>
    ensures { Found result stays.now }
{
    let mut all = Vec::new(alloc);
    let mut clash = false;
    for (k, a) in stays.iter().enumerate() {
        for b in &stays[k + 1..] {
            if meet(a, b) {
                if all.len() >= MOST_MEETINGS {
                    return Err(MeetingFault::TooMany);
                }
                all.push(meeting_of(a, b))?;
                clash = clash || clashing(a, b);
            }
        }
    }
    Ok(Meetings { all, clash })
}
