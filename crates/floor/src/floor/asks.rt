// What is asked of a floor.
ghost use Rattle.std.specs.Prelude.{◌≡◌, ◌↔◌, length, if◌then◌else◌, IsTrue, Some, None, nat_lt};
ghost use Rattle.meetings.specs.Laws.{StopOf};
ghost use Rattle.traffic.specs.Scene.{at};
ghost use Rattle.floor.specs.Next.{next_on};
ghost use Rattle.floor.specs.Open.{is_ahead, is_meeting_open, is_table};
ghost use Rattle.floor.specs.Positions.{IsOpen, IsSound, is_open, paths_in, tables_in};
ghost use Rattle.floor.specs.Shuttles.{shuttle_at, stop_in};

use super::Floor;
use crate::next::next_stop;
use crate::table::Shuttle;
use meetings::meet::Meeting;
use meetings::stays::At;
use plans::plan::Plan;

impl Floor {
    /// The plan.
    pub fn plan(&self) -> &Plan
        ensures value { result.now ≡ self.now.plan }
        ensures sound { IsSound self.now }
    {
        &self.plan
    }

    /// The record of a shuttle; none of one that is not in the plan.
    pub fn shuttle(&self, shuttle: usize) -> Option<Shuttle>
        ensures { result ≡ (if nat_lt shuttle (length (paths_in self.now)) then Some (shuttle_at self.now.shuttles shuttle) else None) }
    {
        self.shuttles.get(shuttle)
    }

    /// The next stop of a shuttle; none at its last stop, and none of a shuttle that is not in the plan.
    pub fn next_stop(&self, shuttle: usize) -> Option<At>
        ensures { result ≡ next_on (paths_in self.now) (at shuttle (stop_in self.now.shuttles shuttle)) }
    {
        let stop = self.shuttle(shuttle)?.stop;
        next_stop(At { shuttle, stop }, self.stop_count(shuttle))
    }

    // Whether a shuttle has yet to enter a stop, and its path goes on from there.
    fn is_ahead(&self, at: At) -> bool
        requires { StopOf (paths_in self.now) at }
        ensures { result ≡ is_ahead (paths_in self.now) self.now.shuttles at }
    {
        self.state(at.shuttle).stop < at.stop
            && next_stop(at, self.stop_count(at.shuttle)).is_some()
    }

    // Whether the place of a stop is a table.
    fn is_table(&self, at: At) -> bool
        requires { StopOf (paths_in self.now) at }
        ensures { result ≡ is_table (paths_in self.now) (tables_in self.now) at }
    {
        let place = self.plan.paths()[at.shuttle].stops[at.stop].place;
        self.plan.tables().iter().any(|table| *table == place)
    }

    // Whether a meeting is open.
    fn is_meeting_open(&self, meeting: Meeting) -> bool
        requires lower { StopOf (paths_in self.now) meeting.lower }
        requires other { StopOf (paths_in self.now) meeting.other }
        ensures { result ≡ is_meeting_open (paths_in self.now) (tables_in self.now) self.now.shuttles meeting }
    {
        self.is_ahead(meeting.lower)
            && self.is_ahead(meeting.other)
            && !self.is_table(meeting.lower)
    }

    /// Whether a meeting, by its number in the plan, is open: both its stops are ahead, and its place is no table.
    pub fn is_open(&self, meeting: usize) -> bool
        ensures test { result ≡ is_open self.now meeting }
        ensures open { IsTrue result ↔ (IsOpen self.now meeting) }
    {
        let Some(meeting) = self.plan.meetings().get(meeting) else {
            return false;
        };
        self.is_meeting_open(*meeting)
    }
}
