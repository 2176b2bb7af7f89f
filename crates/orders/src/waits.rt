// Waits: at a meeting the second shuttle's stop waits for the first shuttle's following stop.
ghost use Rattle.std.specs.Prelude.{◌≡◌, ◌==◌, count_by, IfOk};
ghost use Rattle.std.specs.List.{zip};
ghost use Rattle.meetings.specs.declared.meet.First.{First};
ghost use Rattle.meetings.specs.declared.meet.Meeting.{Meeting};
ghost use Rattle.orders.specs.Waits.{stops_in_order, wait_under, wait_by_number, firsts_of, own_waits, FitsMeeting};

use meetings::laws::meetings_stand;
use meetings::meet::{First, Meeting};
use meetings::stays::At;
use plans::plan::Plan;
use std::alloc::{AllocError, Global};

// A stop that is entered only at a later tick than another.
#[derive(Clone, Copy, PartialEq, Eq, Debug)]
pub struct Wait {
    pub second: At,
    pub awaited: At,
}

// The stops of a meeting, that of the shuttle that goes first before that of the second.
pub(crate) fn in_order(meeting: &Meeting, first: First) -> (At, At)
    ensures { result ≡ stops_in_order meeting.now first }
{
    match first {
        First::Lower => (meeting.lower, meeting.other),
        First::Other => (meeting.other, meeting.lower),
    }
}

// The wait at a meeting, by who goes first.
pub(crate) fn wait_of(meeting: &Meeting, first: First) -> Wait
    requires { FitsMeeting meeting.now }
    ensures { result ≡ wait_under meeting.now first }
{
    let (earlier, second) = in_order(meeting, first);
    Wait {
        second,
        awaited: At {
            shuttle: earlier.shuttle,
            stop: earlier.stop + 1,
        },
    }
}

// The wait at a meeting of the plan, by its number and who goes first, if there is such a meeting.
pub fn wait_at(plan: &Plan, meeting: usize, first: First) -> Option<Wait>
    ensures { result ≡ wait_by_number plan.now.meetings meeting first }
{
    meetings_stand();
    let met = plan.meetings().get(meeting)?;
    Some(wait_of(met, first))
}

// Who goes first in the plan, at each of its meetings.
pub fn plan_firsts(heap: Global, plan: &Plan) -> Result<Vec<First>, AllocError>
    ensures { IfOk result (λ v. v.items ≡ firsts_of plan.now.meetings) }
{
    plan.meetings()
        .iter()
        .map(|meeting| meeting.first)
        .collect(heap)
}

// The waits of the plan's own orders, in meeting order.
pub fn plan_waits(heap: Global, plan: &Plan) -> Result<Vec<Wait>, AllocError>
    ensures { IfOk result (λ v. v.items ≡ own_waits plan.now.meetings) }
{
    meetings_stand();
    let mut all = Vec::new(heap);
    for meeting in plan.meetings() {
        all.push(wait_of(meeting, meeting.first))?;
    }
    Ok(all)
}

// At how many meetings a shuttle goes second.
pub(crate) fn count_second(meetings: &[Meeting], firsts: &[First], shuttle: usize) -> usize
    ensures { result ≡ count_by (λ (p : Meeting × First). (stops_in_order p.0 p.1).1.shuttle == shuttle) (zip meetings.now firsts.now) }
{
    meetings
        .iter()
        .zip(firsts)
        .filter(|(meeting, first)| in_order(meeting, **first).1.shuttle == shuttle)
        .count()
}
