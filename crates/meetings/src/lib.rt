// Where the paths of a plan meet: its meetings in meeting order, with who goes first in the plan, unless two paths collide.
#![tactic(auto)]

ghost use Rattle.files.specs.Views.{paths_of};
ghost use Rattle.meetings.specs.Laws.{MeetingsLaw, ClashLaw, FirstLaw};
ghost use Rattle.meetings.specs.Settled.{Settled, GivesFirst};

use clash::first_clash;
use files::laws::paths_stand;
use files::plan::Path;
use laws::meetings_stand;
use meet::{Meeting, MeetingFault, find_meetings};
use stays::stays_of;
use std::alloc::Global;

pub mod clash;
pub mod laws;
pub mod meet;
pub mod stays;

/// The meetings of paths in meeting order. Over [`meet::MOST_MEETINGS`] of them are refused first, and
/// then paths that collide.
pub fn settle(alloc: Global, paths: &[Path]) -> Result<Vec<Meeting>, MeetingFault>
    ensures value { Settled result (paths_of paths.now) }
    ensures listed { MeetingsLaw (paths_of paths.now) }
    ensures clash { ClashLaw (paths_of paths.now) }
    ensures first { FirstLaw (paths_of paths.now) }
    ensures collision { GivesFirst result (paths_of paths.now) }
{
    paths_stand();
    meetings_stand();
    let stays = stays_of(alloc, paths)?;
    let meetings = find_meetings(alloc, stays.as_slice())?;
    // All pairs are gone over once more only where one of them clashes.
    if meetings.clash {
        first_clash(stays.as_slice())?;
    }
    Ok(meetings.all)
}
