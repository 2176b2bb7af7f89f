// The laws of meetings, for the crates above. These functions do nothing: their contracts are the laws.
ghost use Rattle.std.specs.Prelude.{◌≡◌, List};
ghost use Rattle.files.specs.declared.plan.Stop.{Stop};
ghost use Rattle.meetings.specs.declared.meet.TheConstants.{MOST_MEETINGS};
ghost use Rattle.meetings.specs.Joined.{JoinedLaw};
ghost use Rattle.meetings.specs.Laws.{MeetingsLaw, ClashLaw, ClearLaw, FirstLaw, FirstCollisionLaw};

use files::laws::paths_stand;

/// What the meetings and clashes of any paths are.
pub fn meetings_stand()
    ensures listed { (ps : List (List Stop)) → MeetingsLaw ps }
    ensures clash { (ps : List (List Stop)) → ClashLaw ps }
    ensures clear { (ps : List (List Stop)) → ClearLaw ps }
    ensures first { (ps : List (List Stop)) → FirstLaw ps }
    ensures collision { (ps : List (List Stop)) → FirstCollisionLaw ps }
{
    paths_stand();
}

/// Where the entries of joined lists stand.
pub fn joins_stand<T>()
    ensures { JoinedLaw T }
{}

/// The limit of meetings in numbers.
pub fn limits_stand()
    ensures meetings { MOST_MEETINGS ≡ 256 }
{}
